//! The order of variants.

ghost use Rattle.std.specs.Prelude.{◌≡◌};
ghost use Rattle.std.specs.Cmp.Lexicographic.{slice_cmp};
ghost use Rattle.cache_slots.specs.SlotOrder.{rule_cmp};

use cache_types::OctetsList;
use std::cmp::Ordering;

/// The first lists of values that differ decide, and else the lengths.
pub fn variants_cmp(a: &[OctetsList], b: &[OctetsList]) -> Ordering
    ensures { result ≡ slice_cmp rule_cmp a.now b.now }
{
    for i in 0..a.len().min(b.len()) {
        match a[i].items().cmp(b[i].items()) {
            Ordering::Equal => {}
            decided => return decided,
        }
    }
    a.len().cmp(&b.len())
}
