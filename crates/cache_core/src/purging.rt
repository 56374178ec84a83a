//! A purge: the objects that bear its key now, and that the parts are told of them.

ghost use Rattle.std.specs.Prelude.{◌≡◌, ◌∷◌, ◌&&◌, false, IfOk, OnOk, OnErr};
ghost use Rattle.cache_types.specs.declared.entries.Entry.{Entry};
ghost use Rattle.cache_types.specs.Entries.{newest_first, is_begin, is_end};
ghost use Rattle.cache_types.specs.Legal.{IsLegal, IsLegalPast};
ghost use Rattle.cache_types.specs.Objects.{has_key};
ghost use Rattle.cache_core.specs.Knows.{IsHeld, Knows, is_named};
ghost use Rattle.cache_core.specs.News.{Purged, news_of};
ghost use Rattle.cache_core.specs.Object.{Object, Each};

use crate::parts::Parts;
use crate::terms::bears;
use cache_objects::{ObjectMap, purge_all};
use cache_purge::named;
use cache_types::{Entry, Octets};
use std::alloc::{AllocError, Global};

/// Those of the objects whose terms have the surrogate key now.
fn bearers_of(
    alloc: Global,
    objects: &ObjectMap,
    entries: &[Entry],
    candidates: &[u64],
    key: &Octets,
) -> Result<Vec<u64>, AllocError>
    requires { IsLegal entries.now }
    ensures { IfOk result (λ bearers. Each (IsHeld objects.now (newest_first entries.now)) (newest_first entries.now) → Each (λ o (x : Object). is_named o bearers.items ≡ (is_named o candidates.now && has_key x.renewal.terms.surrogates key.now)) (newest_first entries.now)) }
{
    let mut bearers = Vec::new(alloc);
    for i in 0..candidates.len() {
        if bears(objects, entries, candidates[i], key) {
            bearers.push(candidates[i])?;
        }
    }
    Ok(bearers)
}

/// A purge of the objects with this surrogate key.
pub fn tell_purged(
    parts: &mut Parts,
    alloc: Global,
    entries: &[Entry],
    key: &Octets,
    soft: bool,
) -> Result<(), AllocError>
    requires { IsLegal entries.now }
    ensures told { OnOk result ((e : Entry) → IsLegalPast (e ∷ newest_first entries.now) → is_begin e.call ≡ false → is_end e.call ≡ false → news_of (newest_first entries.now) e ≡ Purged key.now soft → Knows parts.old (newest_first entries.now) → Knows parts.new (e ∷ newest_first entries.now)) }
    ensures kept { OnErr result (parts.new ≡ parts.old) }
{
    let bearers = bearers_of(
        alloc,
        &parts.objects,
        entries,
        named(&parts.bearers, key),
        key,
    )?;
    purge_all(&mut parts.objects, bearers.as_slice(), soft);
    Ok(())
}
