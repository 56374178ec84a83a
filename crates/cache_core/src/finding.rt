//! What a lookup finds, rule by rule, by what the parts hold.

ghost use Rattle.std.specs.Prelude.{◌≡◌, ℕ, List, IfOk, [], ◌∷◌, option_map};
ghost use Rattle.cache_types.specs.declared.entries.Entry.{Entry};
ghost use Rattle.cache_types.specs.Objects.{Insertion};
ghost use Rattle.cache_types.specs.Found.{first_alive, found};
ghost use Rattle.cache_core.specs.Knows.{Knows};
ghost use Rattle.cache_core.specs.Living.{living};

use crate::parts::Parts;
use crate::slots::slot_for;
use cache_objects::ObjectMap;
use cache_types::{Fields, Octets, Rule};
use std::alloc::{AllocError, Global};

/// The object, where it is alive.
pub fn living(objects: &ObjectMap, object: Option<u64>) -> Option<u64>
    ensures { result ≡ living objects.now object }
{
    let object = object?;
    match objects.get(&object) {
        Some(found) => {
            if !found.abandoned && !found.purged {
                Some(object)
            } else {
                None
            }
        }
        None => None,
    }
}

/// The newest object in the slot of these headers under the rule, where it is alive.
fn alive_under(
    alloc: Global,
    parts: &Parts,
    key: &Octets,
    rule: &Rule,
    headers: &Fields,
) -> Result<Option<u64>, AllocError>
    ensures { IfOk result (λ object. (past : List Entry) → Knows parts.now past → object ≡ option_map (λ (made : Insertion). made.object) (first_alive past key.now headers.now (rule.now ∷ []))) }
{
    let slot = slot_for(alloc, key, rule, headers)?;
    Ok(living(&parts.objects, parts.index.object(&slot)))
}

/// What a lookup with these headers finds: the first that is alive, rule by rule.
pub fn found(
    alloc: Global,
    parts: &Parts,
    key: &Octets,
    headers: &Fields,
) -> Result<Option<u64>, AllocError>
    ensures { IfOk result (λ object. (past : List Entry) → Knows parts.now past → object ≡ option_map (λ (made : Insertion). made.object) (found past key.now headers.now)) }
{
    let rules = parts.index.rules(key);
    for i in 0..rules.len() {
        let object = alive_under(alloc, parts, key, &rules[rules.len() - 1 - i], headers)?;
        if object.is_some() {
            return Ok(object);
        }
    }
    Ok(None)
}
