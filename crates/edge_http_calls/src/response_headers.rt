//! The rows of `fastly_http_resp` on headers.
ghost use Rattle.std.specs.Prelude.{◌≡◌, IfOk, Ok, None};
ghost use Rattle.edge_abi.specs.declared.status.Status.TheVariants.{Badf};
ghost use Rattle.edge_abi.specs.Goes.{Ends};
ghost use Rattle.edge_abi.specs.Tables.{held};
ghost use Rattle.edge_http_calls.specs.Headers as spec;
ghost use Rattle.edge_http_calls.specs.Tables.{response_fields, with_response_fields};

use crate::edits::{name_removed, value_added, value_given, values_given};
use crate::headers::{header_names_get, header_value_get, header_values_get};
use crate::tables::HttpTables;
use edge_abi::{Refusal, Status};
use std::alloc::{AllocError, Global};
use wasm_memory::Memory;

/// Tells the names of the headers as a list, each where it first stands.
pub fn http_resp_header_names_get(
    alloc: Global,
    tables: &mut HttpTables,
    memory: &mut Memory,
    h: u32,
    b: u32,
    room: u32,
    cursor: u32,
    ending: u32,
    count: u32,
) -> Result<Status, AllocError>
    ensures row { IfOk result (λ status. Ends (spec.header_names_get (response_fields tables.old h) tables.old memory.old b room cursor ending count) status tables.new memory.new) }
    ensures badf { held tables.old.responses h ≡ None → result ≡ Ok Badf }
{
    header_names_get(
        alloc,
        tables.response_fields(h),
        memory,
        b,
        room,
        cursor,
        ending,
        count,
    )
}

/// Tells the first value of a name.
pub fn http_resp_header_value_get(
    _alloc: Global,
    tables: &mut HttpTables,
    memory: &mut Memory,
    h: u32,
    p: u32,
    n: u32,
    b: u32,
    room: u32,
    count: u32,
) -> Result<Status, AllocError>
    ensures row { IfOk result (λ status. Ends (spec.header_value_get (response_fields tables.old h) tables.old memory.old p n b room count) status tables.new memory.new) }
    ensures badf { held tables.old.responses h ≡ None → result ≡ Ok Badf }
{
    header_value_get(tables.response_fields(h), memory, p, n, b, room, count)
}

/// Tells all values of a name as a list.
pub fn http_resp_header_values_get(
    alloc: Global,
    tables: &mut HttpTables,
    memory: &mut Memory,
    h: u32,
    p: u32,
    n: u32,
    b: u32,
    room: u32,
    cursor: u32,
    ending: u32,
    count: u32,
) -> Result<Status, AllocError>
    ensures row { IfOk result (λ status. Ends (spec.header_values_get (response_fields tables.old h) tables.old memory.old p n b room cursor ending count) status tables.new memory.new) }
    ensures badf { held tables.old.responses h ≡ None → result ≡ Ok Badf }
{
    header_values_get(
        alloc,
        tables.response_fields(h),
        memory,
        p,
        n,
        b,
        room,
        cursor,
        ending,
        count,
    )
}

/// Gives a name these values, each ended by NUL, in the place of all that it had.
pub fn http_resp_header_values_set(
    alloc: Global,
    tables: &mut HttpTables,
    memory: &mut Memory,
    h: u32,
    p: u32,
    n: u32,
    q: u32,
    len: u32,
) -> Result<Status, AllocError>
    ensures row { IfOk result (λ status. Ends (spec.header_values_set (with_response_fields tables.old h) (response_fields tables.old h) tables.old memory.old p n q len) status tables.new memory.new) }
    ensures badf { held tables.old.responses h ≡ None → result ≡ Ok Badf }
{
    match values_given(alloc, tables.response_fields(h), memory, p, n, q, len) {
        Ok(fields) => {
            tables.set_response_fields(h, fields);
            Ok(Status::Ok)
        }
        Err(Refusal::Told(status)) => Ok(status),
        Err(Refusal::OutOfMemory) => Err(AllocError),
    }
}

/// Gives a name this value in the place of all that it had.
pub fn http_resp_header_insert(
    alloc: Global,
    tables: &mut HttpTables,
    memory: &mut Memory,
    h: u32,
    p: u32,
    n: u32,
    q: u32,
    len: u32,
) -> Result<Status, AllocError>
    ensures row { IfOk result (λ status. Ends (spec.header_insert (with_response_fields tables.old h) (response_fields tables.old h) tables.old memory.old p n q len) status tables.new memory.new) }
    ensures badf { held tables.old.responses h ≡ None → result ≡ Ok Badf }
{
    match value_given(alloc, tables.response_fields(h), memory, p, n, q, len) {
        Ok(fields) => {
            tables.set_response_fields(h, fields);
            Ok(Status::Ok)
        }
        Err(Refusal::Told(status)) => Ok(status),
        Err(Refusal::OutOfMemory) => Err(AllocError),
    }
}

/// Gives a name one value more.
pub fn http_resp_header_append(
    alloc: Global,
    tables: &mut HttpTables,
    memory: &mut Memory,
    h: u32,
    p: u32,
    n: u32,
    q: u32,
    len: u32,
) -> Result<Status, AllocError>
    ensures row { IfOk result (λ status. Ends (spec.header_append (with_response_fields tables.old h) (response_fields tables.old h) tables.old memory.old p n q len) status tables.new memory.new) }
    ensures badf { held tables.old.responses h ≡ None → result ≡ Ok Badf }
{
    match value_added(alloc, tables.response_fields(h), memory, p, n, q, len) {
        Ok(fields) => {
            tables.set_response_fields(h, fields);
            Ok(Status::Ok)
        }
        Err(Refusal::Told(status)) => Ok(status),
        Err(Refusal::OutOfMemory) => Err(AllocError),
    }
}

/// Takes a name and its values away.
pub fn http_resp_header_remove(
    alloc: Global,
    tables: &mut HttpTables,
    memory: &mut Memory,
    h: u32,
    p: u32,
    n: u32,
) -> Result<Status, AllocError>
    ensures row { IfOk result (λ status. Ends (spec.header_remove (with_response_fields tables.old h) (response_fields tables.old h) tables.old memory.old p n) status tables.new memory.new) }
    ensures badf { held tables.old.responses h ≡ None → result ≡ Ok Badf }
{
    match name_removed(alloc, tables.response_fields(h), memory, p, n) {
        Ok(fields) => {
            tables.set_response_fields(h, fields);
            Ok(Status::Ok)
        }
        Err(Refusal::Told(status)) => Ok(status),
        Err(Refusal::OutOfMemory) => Err(AllocError),
    }
}
