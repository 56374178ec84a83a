//! The rows that read headers, for requests and responses alike. `fields` are the headers that the handle names, if it names
//! any.
ghost use Rattle.std.specs.Prelude.{◌≡◌, IsTrue, Ok, Err, None, IfOk, IfErr, OnOk, option_copied};
ghost use Rattle.edge_abi.specs.declared.status.Status.TheVariants.{Badf};
ghost use Rattle.edge_abi.specs.declared.status.Refusal.TheVariants.{Told};
ghost use Rattle.edge_abi.specs.Goes.{Ends};
ghost use Rattle.edge_abi.specs.Memory.{has_range};
ghost use Rattle.edge_abi.specs.Refusals.{Judges};
ghost use Rattle.edge_http_calls.specs.Headers as spec;
ghost use Rattle.edge_http_calls.specs.Texts.{is_token};

use crate::fields::{first_value, names_of, values_named};
use crate::tables::HttpTables;
use crate::texts::is_token;
use cache_types::{Fields, Octets, OctetsList};
use edge_abi::{Refusal, Status, placed, put_list, put_value, ranged, unless};
use std::alloc::{AllocError, Global};
use wasm_memory::Memory;

/// The name that stands at a place: a token of at most 64 bytes.
pub fn token_at(memory: &Memory, p: u32, n: u32) -> Result<&[u8], Refusal>
    requires { IsTrue (has_range memory.now p n) }
    ensures ok { IfOk result (λ text. spec.token_at memory.now p n ≡ Ok text.now) }
    ensures token { IfOk result (λ text. IsTrue (is_token text.now)) }
    ensures err { IfErr result (λ refusal. spec.token_at memory.now p n ≡ Err refusal) }
{
    match memory.part(p, n) {
        Some(text) => {
            unless(is_token(text), Status::Httpinvalid)?;
            Ok(text)
        }
        None => unreachable!(),
    }
}

fn names_asked(
    alloc: Global,
    fields: Option<&Fields>,
    memory: &Memory,
    b: u32,
    room: u32,
    ending: u32,
    count: u32,
) -> Result<OctetsList, Refusal>
    ensures asked { Judges (spec.names_asked (option_copied fields.entry) memory.now b room ending count) result }
    ensures range { OnOk result (IsTrue (has_range memory.now b room)) }
    ensures badf { option_copied fields.entry ≡ None → result ≡ Err (Told Badf) }
{
    let Some(found) = fields else {
        return Err(Refusal::Told(Status::Badf));
    };
    ranged(memory, b, room)?;
    placed(memory, ending, 8)?;
    placed(memory, count, 4)?;
    Ok(names_of(alloc, found.items())?)
}

/// Writes the names of the headers as a list.
pub fn header_names_get(
    alloc: Global,
    fields: Option<&Fields>,
    memory: &mut Memory,
    b: u32,
    room: u32,
    cursor: u32,
    ending: u32,
    count: u32,
) -> Result<Status, AllocError>
    ensures row { IfOk result (λ status. (t : HttpTables) → Ends (spec.header_names_get (option_copied fields.entry) t memory.old b room cursor ending count) status t memory.new) }
    ensures badf { option_copied fields.entry ≡ None → result ≡ Ok Badf }
{
    match names_asked(alloc, fields, memory, b, room, ending, count) {
        Ok(names) => Ok(put_list(memory, b, room, cursor, ending, count, &names)),
        Err(Refusal::Told(status)) => Ok(status),
        Err(Refusal::OutOfMemory) => Err(AllocError),
    }
}

fn value_asked<'a>(
    fields: Option<&'a Fields>,
    memory: &Memory,
    p: u32,
    n: u32,
    b: u32,
    room: u32,
    count: u32,
) -> Result<&'a Octets, Refusal>
    ensures ok { IfOk result (λ value. spec.value_asked (option_copied fields.entry) memory.now p n b room count ≡ Ok value.now) }
    ensures err { IfErr result (λ refusal. spec.value_asked (option_copied fields.entry) memory.now p n b room count ≡ Err refusal) }
{
    let Some(found) = fields else {
        return Err(Refusal::Told(Status::Badf));
    };
    ranged(memory, p, n)?;
    ranged(memory, b, room)?;
    placed(memory, count, 4)?;
    let name = token_at(memory, p, n)?;
    match first_value(found.items(), name) {
        Some(value) => Ok(value),
        None => Err(Refusal::Told(Status::None)),
    }
}

/// Writes the first value of a name.
pub fn header_value_get(
    fields: Option<&Fields>,
    memory: &mut Memory,
    p: u32,
    n: u32,
    b: u32,
    room: u32,
    count: u32,
) -> Result<Status, AllocError>
    ensures row { IfOk result (λ status. (t : HttpTables) → Ends (spec.header_value_get (option_copied fields.entry) t memory.old p n b room count) status t memory.new) }
    ensures badf { option_copied fields.entry ≡ None → result ≡ Ok Badf }
{
    match value_asked(fields, memory, p, n, b, room, count) {
        Ok(value) => Ok(put_value(memory, b, room, count, value.bytes())),
        Err(Refusal::Told(status)) => Ok(status),
        Err(Refusal::OutOfMemory) => Err(AllocError),
    }
}

fn values_asked(
    alloc: Global,
    fields: Option<&Fields>,
    memory: &Memory,
    p: u32,
    n: u32,
    b: u32,
    room: u32,
    ending: u32,
    count: u32,
) -> Result<OctetsList, Refusal>
    ensures asked { Judges (spec.values_asked (option_copied fields.entry) memory.now p n b room ending count) result }
    ensures range { OnOk result (IsTrue (has_range memory.now b room)) }
    ensures badf { option_copied fields.entry ≡ None → result ≡ Err (Told Badf) }
{
    let Some(found) = fields else {
        return Err(Refusal::Told(Status::Badf));
    };
    ranged(memory, p, n)?;
    ranged(memory, b, room)?;
    placed(memory, ending, 8)?;
    placed(memory, count, 4)?;
    let name = token_at(memory, p, n)?;
    Ok(values_named(alloc, found.items(), name)?)
}

/// Writes all values of a name as a list.
pub fn header_values_get(
    alloc: Global,
    fields: Option<&Fields>,
    memory: &mut Memory,
    p: u32,
    n: u32,
    b: u32,
    room: u32,
    cursor: u32,
    ending: u32,
    count: u32,
) -> Result<Status, AllocError>
    ensures row { IfOk result (λ status. (t : HttpTables) → Ends (spec.header_values_get (option_copied fields.entry) t memory.old p n b room cursor ending count) status t memory.new) }
    ensures badf { option_copied fields.entry ≡ None → result ≡ Ok Badf }
{
    match values_asked(alloc, fields, memory, p, n, b, room, ending, count) {
        Ok(values) => Ok(put_list(memory, b, room, cursor, ending, count, &values)),
        Err(Refusal::Told(status)) => Ok(status),
        Err(Refusal::OutOfMemory) => Err(AllocError),
    }
}
