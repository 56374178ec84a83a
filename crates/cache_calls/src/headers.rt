//! The headers of a request, as the cache takes them.
ghost use Rattle.std.specs.Prelude.{◌≡◌, ◌+◌, ◌≤◌, Ok, Err, IsTrue, IfOk, IfErr, IfSome, length, option_copied};
ghost use Rattle.cache_types.specs.Limits.{is_headers};
ghost use Rattle.edge_body.specs.Heads.{are_fields};
ghost use Rattle.cache_calls.specs.Options as spec;

use crate::options::{has, word_at};
use cache_types::{Copied, Field, Fields, Items, is_header_name};
use edge_abi::{Refusal, Status};
use edge_http_calls::HttpTables;
use std::alloc::{AllocError, Global};
use wasm_memory::Memory;

/// The bit of a request's handle in the masks of lookups and writes.
const REQUEST_HEADERS: u32 = 2;

/// The headers of the request whose handle stands at the place, where it is given.
pub fn request_given<'a>(
    http: &'a HttpTables,
    memory: &Memory,
    mask: u32,
    place: u64,
) -> Result<Option<&'a Fields>, Refusal>
    requires { place + 4 ≤ length memory.now.bytes }
    ensures ok { IfOk result (λ given. spec.request_given http.now memory.now mask place ≡ Ok (option_copied given)) }
    ensures kept { IfOk result (λ given. IfSome given (λ fields. IsTrue (are_fields fields.now))) }
    ensures err { IfErr result (λ refusal. spec.request_given http.now memory.now mask place ≡ Err refusal) }
{
    if !has(mask, REQUEST_HEADERS) {
        return Ok(None);
    }
    match http.request_fields(word_at(memory, place)) {
        Some(fields) => Ok(Some(fields)),
        None => Err(Refusal::Told(Status::Badf)),
    }
}

/// The headers whose names a rule can have.
fn handed(alloc: Global, fields: &[Field]) -> Result<Fields, AllocError>
    requires { IsTrue (are_fields fields.now) }
    ensures value { IfOk result (λ handed. handed ≡ spec.handed fields.now) }
    ensures kept { IfOk result (λ handed. IsTrue (is_headers handed)) }
{
    let mut handed = Vec::new(alloc);
    for field in fields {
        if is_header_name(field.name.bytes()) {
            handed.push(field.copy(alloc)?)?;
        }
    }
    Ok(Items::of(handed))
}

/// The headers that the cache is given.
pub fn headers_of(alloc: Global, given: Option<&Fields>) -> Result<Fields, AllocError>
    requires { IfSome given (λ fields. IsTrue (are_fields fields.now)) }
    ensures value { IfOk result (λ headers. headers ≡ spec.headers_of (option_copied given.entry)) }
    ensures kept { IfOk result (λ headers. IsTrue (is_headers headers)) }
{
    match given {
        Some(fields) => handed(alloc, fields.items()),
        None => Ok(Items::of(Vec::new(alloc))),
    }
}
