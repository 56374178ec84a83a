//! The slot of headers under a rule.

ghost use Rattle.std.specs.Prelude.{◌≡◌, IfOk};
ghost use Rattle.cache_types.specs.Slots.{slot_for};

use cache_slots::Slot;
use cache_types::{Copied, Fields, Octets, Rule};
use std::alloc::{AllocError, Global};
use vary_rules::variant_of;

/// The slot of these headers under a rule of the key.
pub fn slot_for(
    alloc: Global,
    key: &Octets,
    rule: &Rule,
    headers: &Fields,
) -> Result<Slot, AllocError>
    ensures { IfOk result (λ slot. slot ≡ slot_for key.now rule.now headers.now) }
{
    let variant = variant_of(alloc, rule, headers)?;
    Ok(Slot::of(key.copy(alloc)?, rule.copy(alloc)?, variant))
}
