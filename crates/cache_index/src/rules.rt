//! The rules of each key. A rule that is told again becomes the newest, and stands once.

ghost use Rattle.std.specs.Prelude.{◌≡◌, ◌<◌, not, filter, reverse, length, vec_capacity, OnOk, ℕ, List, cond, bytes_eq};
ghost use Rattle.std.specs.Ordering.{nat_cmp};
ghost use Rattle.std.specs.Cmp.Lexicographic.{slice_cmp};
ghost use Rattle.cache_types.specs.Slots.{same_rule};
ghost use Rattle.cache_types.specs.Found.{put_first};
ghost use Rattle.cache_index.specs.Kept.{rules_at, HasRoomAt};

use cache_types::{Copied, Octets, Rule};
use std::alloc::{AllocError, Global};
use std::collections::BTreeMap;

/// The rules of each key, the newest last.
pub type RuleMap = BTreeMap<Octets, Vec<Rule>>;

/// Takes the rule out.
fn take_out(rules: &mut Vec<Rule>, rule: &Rule)
    ensures left { rules.new.items ≡ filter (λ (other : List (List ℕ)). not (same_rule other rule.now)) rules.old.items }
    ensures capacity { vec_capacity rules.new ≡ vec_capacity rules.old }
{
    rules.retain(|other| *other != *rule);
}

/// The rule becomes the newest.
fn put_newest(rules: &mut Vec<Rule>, rule: Rule)
    requires { length rules.old.items < vec_capacity rules.old }
    ensures { reverse rules.new.items ≡ put_first rule (reverse rules.old.items) }
{
    take_out(rules, &rule);
    rules.push_reserved(rule);
}

/// Makes room for one more rule of the key.
pub fn make_room(rules: &mut RuleMap, alloc: Global, key: &Octets) -> Result<(), AllocError>
    ensures same { (q : List ℕ) → rules_at rules.new q ≡ rules_at rules.old q }
    ensures room { OnOk result (HasRoomAt rules.new key.now) }
{
    if let Some(list) = rules.get_mut(key) {
        return list.reserve(1);
    }
    let mut list = Vec::new(alloc);
    list.reserve(1)?;
    rules.insert(key.copy(alloc)?, list)?;
    Ok(())
}

/// The rule becomes the newest of its key, which has room for one more.
pub fn renew(rules: &mut RuleMap, key: &Octets, rule: Rule)
    requires { HasRoomAt rules.old key.now }
    ensures { (q : List ℕ) → rules_at rules.new q ≡ (cond (bytes_eq key.now q) (put_first rule (rules_at rules.old q)) (rules_at rules.old q)) }
{
    if let Some(list) = rules.get_mut(key) {
        put_newest(list, rule);
    }
}
