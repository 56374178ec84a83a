//! Headers as the rows that change them leave them. `fields` are the headers that the handle names, if it names any.
ghost use Rattle.std.specs.List.{list_all};
ghost use Rattle.std.specs.Prelude.{◌≡◌, IsTrue, Ok, Err, None, IfOk, IfErr, IfSome, option_copied};
ghost use Rattle.edge_abi.specs.declared.status.Status.TheVariants.{Badf};
ghost use Rattle.edge_abi.specs.declared.status.Refusal.TheVariants.{Told};
ghost use Rattle.edge_abi.specs.Memory.{has_range};
ghost use Rattle.edge_abi.specs.Refusals.{Judges};
ghost use Rattle.edge_body.specs.Heads.{is_field, are_fields};
ghost use Rattle.edge_http_calls.specs.Headers as spec;
ghost use Rattle.edge_http_calls.specs.Texts.{is_text};

use crate::fields::{appended, replaced, replaced_by_one, stands, without};
use crate::headers::token_at;
use crate::texts::{are_texts, is_ended, is_text, values_in};
use cache_types::{Field, Fields, Items};
use edge_abi::{Refusal, Status, ranged, unless};
use std::alloc::Global;
use wasm_memory::Memory;

/// The most headers of a message.
const MOST_FIELDS: usize = 100;

/// The value that stands at a place.
fn text_at(memory: &Memory, q: u32, len: u32) -> Result<&[u8], Refusal>
    requires { IsTrue (has_range memory.now q len) }
    ensures ok { IfOk result (λ text. spec.text_at memory.now q len ≡ Ok text.now) }
    ensures text { IfOk result (λ text. IsTrue (is_text text.now)) }
    ensures err { IfErr result (λ refusal. spec.text_at memory.now q len ≡ Err refusal) }
{
    match memory.part(q, len) {
        Some(text) => {
            unless(is_text(text), Status::Httpinvalid)?;
            Ok(text)
        }
        None => unreachable!(),
    }
}

/// The text of values that stands at a place, each ended by NUL.
fn ended_at(memory: &Memory, q: u32, len: u32) -> Result<&[u8], Refusal>
    requires { IsTrue (has_range memory.now q len) }
    ensures ok { IfOk result (λ text. spec.ended_at memory.now q len ≡ Ok text.now) }
    ensures err { IfErr result (λ refusal. spec.ended_at memory.now q len ≡ Err refusal) }
{
    match memory.part(q, len) {
        Some(text) => {
            unless(is_ended(text), Status::Inval)?;
            Ok(text)
        }
        None => unreachable!(),
    }
}

/// No more headers than a message may have.
fn limited(fields: Vec<Field>) -> Result<Fields, Refusal>
    requires { IsTrue (list_all is_field fields.items) }
    ensures value { result ≡ spec.limited fields.items }
    ensures kept { IfOk result (λ fields. IsTrue (are_fields fields)) }
{
    unless(fields.len() <= MOST_FIELDS, Status::Limitexceeded)?;
    Ok(Items::of(fields))
}

/// The headers with this value in the place of all that the name had.
pub fn value_given(
    alloc: Global,
    fields: Option<&Fields>,
    memory: &Memory,
    p: u32,
    n: u32,
    q: u32,
    len: u32,
) -> Result<Fields, Refusal>
    requires { IfSome fields (λ found. IsTrue (are_fields found.now)) }
    ensures asked { Judges (spec.value_given (option_copied fields.entry) memory.now p n q len) result }
    ensures kept { IfOk result (λ changed. IsTrue (are_fields changed)) }
    ensures badf { option_copied fields.entry ≡ None → result ≡ Err (Told Badf) }
{
    let Some(found) = fields else {
        return Err(Refusal::Told(Status::Badf));
    };
    ranged(memory, p, n)?;
    ranged(memory, q, len)?;
    let name = token_at(memory, p, n)?;
    let value = text_at(memory, q, len)?;
    limited(replaced_by_one(alloc, found.items(), name, value)?)
}

/// The headers with this value more.
pub fn value_added(
    alloc: Global,
    fields: Option<&Fields>,
    memory: &Memory,
    p: u32,
    n: u32,
    q: u32,
    len: u32,
) -> Result<Fields, Refusal>
    requires { IfSome fields (λ found. IsTrue (are_fields found.now)) }
    ensures asked { Judges (spec.value_added (option_copied fields.entry) memory.now p n q len) result }
    ensures kept { IfOk result (λ changed. IsTrue (are_fields changed)) }
    ensures badf { option_copied fields.entry ≡ None → result ≡ Err (Told Badf) }
{
    let Some(found) = fields else {
        return Err(Refusal::Told(Status::Badf));
    };
    ranged(memory, p, n)?;
    ranged(memory, q, len)?;
    let name = token_at(memory, p, n)?;
    let value = text_at(memory, q, len)?;
    limited(appended(alloc, found.items(), name, value)?)
}

/// The headers with these values in the place of all that the name had.
pub fn values_given(
    alloc: Global,
    fields: Option<&Fields>,
    memory: &Memory,
    p: u32,
    n: u32,
    q: u32,
    len: u32,
) -> Result<Fields, Refusal>
    requires { IfSome fields (λ found. IsTrue (are_fields found.now)) }
    ensures asked { Judges (spec.values_given (option_copied fields.entry) memory.now p n q len) result }
    ensures kept { IfOk result (λ changed. IsTrue (are_fields changed)) }
    ensures badf { option_copied fields.entry ≡ None → result ≡ Err (Told Badf) }
{
    let Some(found) = fields else {
        return Err(Refusal::Told(Status::Badf));
    };
    ranged(memory, p, n)?;
    ranged(memory, q, len)?;
    let name = token_at(memory, p, n)?;
    let text = ended_at(memory, q, len)?;
    let values = values_in(alloc, text)?;
    unless(are_texts(values.as_slice()), Status::Httpinvalid)?;
    limited(replaced(alloc, found.items(), name, values)?)
}

/// The headers without those of a name.
pub fn name_removed(
    alloc: Global,
    fields: Option<&Fields>,
    memory: &Memory,
    p: u32,
    n: u32,
) -> Result<Fields, Refusal>
    requires { IfSome fields (λ found. IsTrue (are_fields found.now)) }
    ensures asked { Judges (spec.name_removed (option_copied fields.entry) memory.now p n) result }
    ensures kept { IfOk result (λ changed. IsTrue (are_fields changed)) }
    ensures badf { option_copied fields.entry ≡ None → result ≡ Err (Told Badf) }
{
    let Some(found) = fields else {
        return Err(Refusal::Told(Status::Badf));
    };
    ranged(memory, p, n)?;
    let name = token_at(memory, p, n)?;
    unless(stands(found.items(), name), Status::None)?;
    Ok(Items::of(without(alloc, found.items(), name)?))
}
