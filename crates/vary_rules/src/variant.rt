//! The variant of a rule for the headers of a request.

ghost use Rattle.std.specs.Prelude.{◌≡◌, IfOk};
ghost use Rattle.cache_types.specs.Slots.{values_of, variant_of};

use cache_types::{Copied, Fields, Items, Octets, OctetsList, Rule, Variant};
use std::alloc::{AllocError, Global};

/// The values of the headers with this name, in their order.
fn values_with_name(
    alloc: Global,
    name: &Octets,
    headers: &Fields,
) -> Result<OctetsList, AllocError>
    ensures { IfOk result (λ values. values ≡ values_of name.now headers.now) }
{
    let mut values = Vec::new(alloc);
    for field in headers.items() {
        if field.name == *name {
            values.push(field.value.copy(alloc)?)?;
        }
    }
    Ok(Items::of(values))
}

/// For each name of the rule, in the rule's order, the values of the headers with that name.
pub fn variant_of(alloc: Global, rule: &Rule, headers: &Fields) -> Result<Variant, AllocError>
    ensures { IfOk result (λ variant. variant ≡ variant_of rule.now headers.now) }
{
    let mut variant = Vec::new(alloc);
    for name in rule.items() {
        variant.push(values_with_name(alloc, name, headers)?)?;
    }
    Ok(Items::of(variant))
}
