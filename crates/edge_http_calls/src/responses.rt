//! The rows of `fastly_http_resp` that make no outer call, but for those on headers.
ghost use Rattle.std.specs.Prelude.{◌≡◌, false, IfOk, IfSome, IfNone, IsTrue, Ok, None};
ghost use Rattle.edge_abi.specs.declared.status.Status.TheVariants.{Badf};
ghost use Rattle.edge_abi.specs.Goes.{Ends};
ghost use Rattle.edge_abi.specs.Tables.{held};
ghost use Rattle.edge_body.specs.Heads.{is_status};
ghost use Rattle.edge_http_calls.specs.Requests.{newly};
ghost use Rattle.edge_http_calls.specs.Tables.{with_response};
ghost use Rattle.edge_http_calls.specs.Responses as spec;

use crate::asked::{newly, with_place};
use crate::tables::HttpTables;
use cache_types::Items;
use edge_abi::{Refusal, Status, put_number};
use edge_body::ResponseHead;
use std::alloc::{AllocError, Global};
use wasm_memory::Memory;

fn add_response(
    alloc: Global,
    tables: &mut HttpTables,
    memory: &mut Memory,
    o: u32,
) -> Result<Status, AllocError>
    requires { newly tables.old.responses memory.old o ≡ Ok tt }
    ensures { IfOk result (λ status. Ends (spec.http_resp_new tables.old memory.old o) status tables.new memory.new) }
{
    let head = ResponseHead::new(200, 2, Items::of(Vec::new(alloc)));
    match tables.responses.add(head) {
        Ok(number) => {
            put_number(memory, o, 4, u64::from(number));
            Ok(Status::Ok)
        }
        Err(_) => Err(AllocError),
    }
}

/// Makes a response: 200, HTTP/1.1, no headers.
pub fn http_resp_new(
    alloc: Global,
    tables: &mut HttpTables,
    memory: &mut Memory,
    o: u32,
) -> Result<Status, AllocError>
    ensures { IfOk result (λ status. Ends (spec.http_resp_new tables.old memory.old o) status tables.new memory.new) }
{
    match newly(&tables.responses, memory, o) {
        Ok(()) => add_response(alloc, tables, memory, o),
        Err(Refusal::Told(status)) => Ok(status),
        Err(Refusal::OutOfMemory) => Err(AllocError),
    }
}

/// Drops a response.
pub fn http_resp_close(
    _alloc: Global,
    tables: &mut HttpTables,
    memory: &mut Memory,
    h: u32,
) -> Result<Status, AllocError>
    ensures row { IfOk result (λ status. Ends (spec.http_resp_close tables.old memory.old h) status tables.new memory.new) }
    ensures badf { held tables.old.responses h ≡ None → result ≡ Ok Badf }
{
    match tables.responses.get(h) {
        Some(_) => {
            tables.responses.take(h);
            Ok(Status::Ok)
        }
        None => Ok(Status::Badf),
    }
}

/// Tells the version of HTTP: 0 to 4 for 0.9, 1.0, 1.1, 2, 3.
pub fn http_resp_version_get(
    _alloc: Global,
    tables: &mut HttpTables,
    memory: &mut Memory,
    h: u32,
    o: u32,
) -> Result<Status, AllocError>
    ensures row { IfOk result (λ status. Ends (spec.http_resp_version_get tables.old memory.old h o) status tables.new memory.new) }
    ensures badf { held tables.old.responses h ≡ None → result ≡ Ok Badf }
{
    match with_place(&tables.responses, memory, h, o, 4) {
        Ok(head) => {
            put_number(memory, o, 4, u64::from(head.version()));
            Ok(Status::Ok)
        }
        Err(Refusal::Told(status)) => Ok(status),
        Err(Refusal::OutOfMemory) => Err(AllocError),
    }
}

fn set_version(tables: &mut HttpTables, h: u32, version: u32)
    ensures { tables.new ≡ with_response tables.old h (λ r. record r { version = version }) }
{
    if let Some(head) = tables.responses.get_mut(h) {
        head.set_version(version);
    }
}

/// Sets the version of HTTP.
pub fn http_resp_version_set(
    _alloc: Global,
    tables: &mut HttpTables,
    memory: &mut Memory,
    h: u32,
    version: u32,
) -> Result<Status, AllocError>
    ensures row { IfOk result (λ status. Ends (spec.http_resp_version_set tables.old memory.old h version) status tables.new memory.new) }
    ensures badf { held tables.old.responses h ≡ None → result ≡ Ok Badf }
{
    match tables.responses.get(h) {
        None => Ok(Status::Badf),
        Some(_) if 4 < version => Ok(Status::Inval),
        Some(_) => {
            set_version(tables, h, version);
            Ok(Status::Ok)
        }
    }
}

/// Tells the status.
pub fn http_resp_status_get(
    _alloc: Global,
    tables: &mut HttpTables,
    memory: &mut Memory,
    h: u32,
    o: u32,
) -> Result<Status, AllocError>
    ensures row { IfOk result (λ status. Ends (spec.http_resp_status_get tables.old memory.old h o) status tables.new memory.new) }
    ensures badf { held tables.old.responses h ≡ None → result ≡ Ok Badf }
{
    match with_place(&tables.responses, memory, h, o, 2) {
        Ok(head) => {
            put_number(memory, o, 2, u64::from(head.status()));
            Ok(Status::Ok)
        }
        Err(Refusal::Told(status)) => Ok(status),
        Err(Refusal::OutOfMemory) => Err(AllocError),
    }
}

/// A number as the status of a response: from 200 to 999.
fn as_status(number: u32) -> Option<u16>
    ensures some { IfSome result (λ status. (status ≡ number) × IsTrue (is_status number)) }
    ensures none { IfNone result (is_status number ≡ false) }
{
    if 200 <= number && number <= 999 {
        Some(number as u16)
    } else {
        None
    }
}

fn set_status(tables: &mut HttpTables, h: u32, status: u16)
    requires { IsTrue (is_status status) }
    ensures { tables.new ≡ with_response tables.old h (λ r. record r { status = status }) }
{
    if let Some(head) = tables.responses.get_mut(h) {
        head.set_status(status);
    }
}

/// Sets the status: 200 to 999.
pub fn http_resp_status_set(
    _alloc: Global,
    tables: &mut HttpTables,
    memory: &mut Memory,
    h: u32,
    number: u32,
) -> Result<Status, AllocError>
    ensures row { IfOk result (λ status. Ends (spec.http_resp_status_set tables.old memory.old h number) status tables.new memory.new) }
    ensures badf { held tables.old.responses h ≡ None → result ≡ Ok Badf }
{
    if tables.responses.get(h).is_none() {
        return Ok(Status::Badf);
    }
    match as_status(number) {
        Some(status) => {
            set_status(tables, h, status);
            Ok(Status::Ok)
        }
        None => Ok(Status::Httpinvalidstatus),
    }
}
