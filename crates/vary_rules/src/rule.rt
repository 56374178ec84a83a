//! The rule that a text names.

ghost use Rattle.std.specs.Prelude.{◌≡◌, [], IfOk, List, ℕ};
ghost use Rattle.vary_rules.specs.Rules as spec;

use crate::fault::RuleFault;
use crate::names::names_of;
use cache_types::{Octets, Rule};
use std::alloc::{AllocFailed, Global};
use std::collections::BTreeSet;

const MOST_NAMES: usize = 32;

/// The names in their order, each once.
fn ordered(alloc: Global, names: Vec<Octets>) -> Result<BTreeSet<Octets>, AllocFailed<Octets>>
    ensures { IfOk result (λ rule. rule.keys ≡ spec.rule_with [] names.items) }
{
    let mut rule = BTreeSet::new(alloc);
    for name in names {
        rule.insert(name)?;
    }
    Ok(rule)
}

/// The rule of the names in a text, which are separated by spaces or commas, in any case. Without a name it is the empty
/// rule.
pub fn read_rule(alloc: Global, text: &[u8]) -> Result<Rule, RuleFault>
    // The rule, or which fault it is, unless memory runs out.
    ensures told { spec.Tells result (spec.told text.now) }

    // A rule rises, so that it holds each of its names once. It holds those in the text, and no other.
    ensures names { IfOk result (λ rule. (name : List ℕ) → spec.holds name rule ≡ spec.holds name (spec.names_of text.now)) }
{
    let names = names_of(alloc, text)?;
    let rule = ordered(alloc, names)?;
    if rule.len() > MOST_NAMES {
        return Err(RuleFault::TooMany);
    }
    let names: Vec<Octets> = rule.into_iter().collect(alloc)?;
    Ok(Rule::of(names))
}
