//! Headers of one message, read and changed. A text names a header whatever the case of its letters.
ghost use Rattle.std.specs.Prelude.{◌≡◌, [], ◌∷◌, bytes_eq, IsTrue, IfOk, OnOk, option_copied};
ghost use Rattle.std.specs.List.{list_any, list_all};
ghost use Rattle.edge_body.specs.Heads.{is_field, are_fields};
ghost use Rattle.edge_http_calls.specs.Fields as spec;
ghost use Rattle.edge_http_calls.specs.Texts.{is_token, is_text};

use crate::texts::{lowered, same_in_lower_case};
use cache_types::{Copied, Field, Items, Octets, OctetsList};
use std::alloc::{AllocError, Global};

/// A header has this name.
fn is_named(field: &Field, text: &[u8]) -> bool
    ensures { result ≡ spec.is_named text.now field.now }
{
    same_in_lower_case(field.name.bytes(), text)
}

/// The first value of a name.
pub fn first_value<'a>(fields: &'a [Field], text: &[u8]) -> Option<&'a Octets>
    ensures { option_copied result ≡ spec.first_value text.now fields.now }
{
    match fields.iter().find(|field| is_named(field, text)) {
        Some(field) => Some(&field.value),
        None => None,
    }
}

/// Some header has this name.
pub fn stands(fields: &[Field], text: &[u8]) -> bool
    ensures { result ≡ list_any (spec.is_named text.now) fields.now }
{
    fields.iter().any(|field| is_named(field, text))
}

fn is_among(names: &[Octets], name: &[u8]) -> bool
    ensures { result ≡ list_any (λ other. bytes_eq other name.now) names.now }
{
    names.iter().any(|other| other.bytes() == name)
}

/// One name more, where it isn't among them.
fn note_name(alloc: Global, names: &mut Vec<Octets>, name: &Octets) -> Result<(), AllocError>
    ensures { OnOk result (names.new.items ≡ spec.with_name names.old.items name.now) }
{
    if is_among(names.as_slice(), name.bytes()) {
        return Ok(());
    }
    names.push(name.copy(alloc)?)?;
    Ok(())
}

/// The names, each where it first stands.
pub fn names_of(alloc: Global, fields: &[Field]) -> Result<OctetsList, AllocError>
    ensures { IfOk result (λ names. names ≡ spec.names_of fields.now) }
{
    let mut names = Vec::new(alloc);
    for field in fields {
        note_name(alloc, &mut names, &field.name)?;
    }
    Ok(Items::of(names))
}

/// The values of a name in their order.
pub fn values_named(alloc: Global, fields: &[Field], text: &[u8]) -> Result<OctetsList, AllocError>
    ensures { IfOk result (λ values. values ≡ spec.values_named text.now fields.now) }
{
    let mut values = Vec::new(alloc);
    for field in fields {
        if is_named(field, text) {
            values.push(field.value.copy(alloc)?)?;
        }
    }
    Ok(Items::of(values))
}

/// The headers without those of a name.
pub fn without(alloc: Global, fields: &[Field], text: &[u8]) -> Result<Vec<Field>, AllocError>
    ensures left { IfOk result (λ left. left.items ≡ spec.without text.now fields.now) }
    ensures kept { IfOk result (λ left. IsTrue (are_fields fields.now) → IsTrue (are_fields left.items)) }
{
    let mut left = Vec::new(alloc);
    for field in fields {
        if !is_named(field, text) {
            left.push(field.copy(alloc)?)?;
        }
    }
    Ok(left)
}

/// A header of these, its name in lower case.
fn field_with(alloc: Global, text: &[u8], value: Octets) -> Result<Field, AllocError>
    ensures { IfOk result (λ field. field ≡ spec.field_with text.now value) }
{
    let name = lowered(alloc, text)?;
    Ok(Field { name, value })
}

/// One header more at the end.
pub fn appended(
    alloc: Global,
    fields: &[Field],
    text: &[u8],
    value: &[u8],
) -> Result<Vec<Field>, AllocError>
    requires fields { IsTrue (are_fields fields.now) }
    requires token { IsTrue (is_token text.now) }
    requires value { IsTrue (is_text value.now) }
    ensures all { IfOk result (λ all. all.items ≡ spec.appended text.now value.now fields.now) }
    ensures kept { IfOk result (λ all. IsTrue (list_all is_field all.items)) }
{
    let mut all = Vec::new(alloc);
    for field in fields {
        all.push(field.copy(alloc)?)?;
    }
    all.push(field_with(alloc, text, Octets::of(alloc, value)?)?)?;
    Ok(all)
}

/// A value of a name at the end, in the place of all that it had.
pub fn replaced_by_one(
    alloc: Global,
    fields: &[Field],
    text: &[u8],
    value: &[u8],
) -> Result<Vec<Field>, AllocError>
    requires fields { IsTrue (are_fields fields.now) }
    requires token { IsTrue (is_token text.now) }
    requires value { IsTrue (is_text value.now) }
    ensures all { IfOk result (λ all. all.items ≡ spec.replaced text.now (value.now ∷ []) fields.now) }
    ensures kept { IfOk result (λ all. IsTrue (list_all is_field all.items)) }
{
    let mut all = without(alloc, fields, text)?;
    all.push(field_with(alloc, text, Octets::of(alloc, value)?)?)?;
    Ok(all)
}

/// These values of a name at the end, in the place of all that it had.
pub fn replaced(
    alloc: Global,
    fields: &[Field],
    text: &[u8],
    values: Vec<Octets>,
) -> Result<Vec<Field>, AllocError>
    requires fields { IsTrue (are_fields fields.now) }
    requires token { IsTrue (is_token text.now) }
    requires values { IsTrue (list_all is_text values.items) }
    ensures all { IfOk result (λ all. all.items ≡ spec.replaced text.now values.items fields.now) }
    ensures kept { IfOk result (λ all. IsTrue (list_all is_field all.items)) }
{
    let mut all = without(alloc, fields, text)?;
    for value in values.as_slice() {
        all.push(field_with(alloc, text, value.copy(alloc)?)?)?;
    }
    Ok(all)
}
