//! The rows of `fastly_http_req`, but for those on headers.
ghost use Rattle.std.specs.Prelude.{◌≡◌, IfOk, IsTrue, Ok, Err, None};
ghost use Rattle.edge_abi.specs.declared.status.Status.TheVariants.{Badf};
ghost use Rattle.edge_abi.specs.declared.status.Refusal.TheVariants.{Told};
ghost use Rattle.edge_abi.specs.Goes.{Ends};
ghost use Rattle.edge_abi.specs.Refusals.{Judges};
ghost use Rattle.edge_abi.specs.Tables.{held};
ghost use Rattle.edge_body.specs.Heads.{is_uri};
ghost use Rattle.edge_http_calls.specs.Requests as spec;
ghost use Rattle.edge_http_calls.specs.Tables.{with_request};
ghost use Rattle.edge_http_calls.specs.Texts.{is_token, is_request_uri};

use crate::asked::{handled, newly, with_buffer, with_place};
use crate::tables::{BodyState, HttpTables};
use crate::texts::{is_request_uri, is_token};
use cache_types::{Items, Octets};
use edge_abi::{Refusal, Status, placed, put_number, put_value, unless};
use edge_body::{Body, Part, RequestHead};
use std::alloc::{AllocError, Global};
use wasm_memory::Memory;

/// What a new request is.
fn new_request(alloc: Global) -> Result<RequestHead, AllocError>
    ensures { IfOk result (λ head. head ≡ spec.new_request) }
{
    let method = Octets::of(alloc, b"GET")?;
    let uri = Octets::of(alloc, b"http://localhost/")?;
    Ok(RequestHead::new(method, uri, 2, Items::of(Vec::new(alloc))))
}

fn add_request(
    alloc: Global,
    tables: &mut HttpTables,
    memory: &mut Memory,
    o: u32,
) -> Result<Status, AllocError>
    requires { spec.newly tables.old.requests memory.old o ≡ Ok tt }
    ensures { IfOk result (λ status. Ends (spec.http_req_new tables.old memory.old o) status tables.new memory.new) }
{
    let head = new_request(alloc)?;
    match tables.requests.add(head) {
        Ok(number) => {
            put_number(memory, o, 4, u64::from(number));
            Ok(Status::Ok)
        }
        Err(_) => Err(AllocError),
    }
}

/// Makes a request.
pub fn http_req_new(
    alloc: Global,
    tables: &mut HttpTables,
    memory: &mut Memory,
    o: u32,
) -> Result<Status, AllocError>
    ensures { IfOk result (λ status. Ends (spec.http_req_new tables.old memory.old o) status tables.new memory.new) }
{
    match newly(&tables.requests, memory, o) {
        Ok(()) => add_request(alloc, tables, memory, o),
        Err(Refusal::Told(status)) => Ok(status),
        Err(Refusal::OutOfMemory) => Err(AllocError),
    }
}

/// Drops a request.
pub fn http_req_close(
    _alloc: Global,
    tables: &mut HttpTables,
    memory: &mut Memory,
    h: u32,
) -> Result<Status, AllocError>
    ensures row { IfOk result (λ status. Ends (spec.http_req_close tables.old memory.old h) status tables.new memory.new) }
    ensures badf { held tables.old.requests h ≡ None → result ≡ Ok Badf }
{
    match tables.requests.get(h) {
        Some(_) => {
            tables.requests.take(h);
            Ok(Status::Ok)
        }
        None => Ok(Status::Badf),
    }
}

/// Tells the version of HTTP: 0 to 4 for 0.9, 1.0, 1.1, 2, 3.
pub fn http_req_version_get(
    _alloc: Global,
    tables: &mut HttpTables,
    memory: &mut Memory,
    h: u32,
    o: u32,
) -> Result<Status, AllocError>
    ensures row { IfOk result (λ status. Ends (spec.http_req_version_get tables.old memory.old h o) status tables.new memory.new) }
    ensures badf { held tables.old.requests h ≡ None → result ≡ Ok Badf }
{
    match with_place(&tables.requests, memory, h, o, 4) {
        Ok(head) => {
            put_number(memory, o, 4, u64::from(head.version()));
            Ok(Status::Ok)
        }
        Err(Refusal::Told(status)) => Ok(status),
        Err(Refusal::OutOfMemory) => Err(AllocError),
    }
}

fn set_version(tables: &mut HttpTables, h: u32, version: u32)
    ensures { tables.new ≡ with_request tables.old h (λ r. record r { version = version }) }
{
    if let Some(head) = tables.requests.get_mut(h) {
        head.set_version(version);
    }
}

/// Sets the version of HTTP.
pub fn http_req_version_set(
    _alloc: Global,
    tables: &mut HttpTables,
    memory: &mut Memory,
    h: u32,
    version: u32,
) -> Result<Status, AllocError>
    ensures row { IfOk result (λ status. Ends (spec.http_req_version_set tables.old memory.old h version) status tables.new memory.new) }
    ensures badf { held tables.old.requests h ≡ None → result ≡ Ok Badf }
{
    match tables.requests.get(h) {
        None => Ok(Status::Badf),
        Some(_) if 4 < version => Ok(Status::Inval),
        Some(_) => {
            set_version(tables, h, version);
            Ok(Status::Ok)
        }
    }
}

/// Tells the method.
pub fn http_req_method_get(
    _alloc: Global,
    tables: &mut HttpTables,
    memory: &mut Memory,
    h: u32,
    b: u32,
    room: u32,
    count: u32,
) -> Result<Status, AllocError>
    ensures row { IfOk result (λ status. Ends (spec.http_req_method_get tables.old memory.old h b room count) status tables.new memory.new) }
    ensures badf { held tables.old.requests h ≡ None → result ≡ Ok Badf }
{
    match with_buffer(&tables.requests, memory, h, b, room, count) {
        Ok(head) => Ok(put_value(memory, b, room, count, head.method().bytes())),
        Err(Refusal::Told(status)) => Ok(status),
        Err(Refusal::OutOfMemory) => Err(AllocError),
    }
}

/// Tells the uri.
pub fn http_req_uri_get(
    _alloc: Global,
    tables: &mut HttpTables,
    memory: &mut Memory,
    h: u32,
    b: u32,
    room: u32,
    count: u32,
) -> Result<Status, AllocError>
    ensures row { IfOk result (λ status. Ends (spec.http_req_uri_get tables.old memory.old h b room count) status tables.new memory.new) }
    ensures badf { held tables.old.requests h ≡ None → result ≡ Ok Badf }
{
    match with_buffer(&tables.requests, memory, h, b, room, count) {
        Ok(head) => Ok(put_value(memory, b, room, count, head.uri().bytes())),
        Err(Refusal::Told(status)) => Ok(status),
        Err(Refusal::OutOfMemory) => Err(AllocError),
    }
}

/// A method that a request may be given.
fn method_asked(
    alloc: Global,
    tables: &HttpTables,
    memory: &Memory,
    h: u32,
    p: u32,
    n: u32,
) -> Result<Octets, Refusal>
    ensures asked { Judges (spec.text_asked is_token tables.now.requests memory.now h p n) result }
    ensures badf { held tables.now.requests h ≡ None → result ≡ Err (Told Badf) }
{
    handled(&tables.requests, h)?;
    match memory.part(p, n) {
        None => Err(Refusal::Told(Status::Inval)),
        Some(text) => {
            unless(is_token(text), Status::Httpinvalid)?;
            Ok(Octets::of(alloc, text)?)
        }
    }
}

fn set_method(tables: &mut HttpTables, h: u32, method: Octets)
    ensures { tables.new ≡ with_request tables.old h (λ r. record r { method = method }) }
{
    if let Some(head) = tables.requests.get_mut(h) {
        head.set_method(method);
    }
}

/// Sets the method: a token of at most 64 bytes.
pub fn http_req_method_set(
    alloc: Global,
    tables: &mut HttpTables,
    memory: &mut Memory,
    h: u32,
    p: u32,
    n: u32,
) -> Result<Status, AllocError>
    ensures row { IfOk result (λ status. Ends (spec.http_req_method_set tables.old memory.old h p n) status tables.new memory.new) }
    ensures badf { held tables.old.requests h ≡ None → result ≡ Ok Badf }
{
    match method_asked(alloc, tables, memory, h, p, n) {
        Ok(text) => {
            set_method(tables, h, text);
            Ok(Status::Ok)
        }
        Err(Refusal::Told(status)) => Ok(status),
        Err(Refusal::OutOfMemory) => Err(AllocError),
    }
}

/// A uri that a request may be given.
fn uri_asked(
    alloc: Global,
    tables: &HttpTables,
    memory: &Memory,
    h: u32,
    p: u32,
    n: u32,
) -> Result<Octets, Refusal>
    ensures asked { Judges (spec.text_asked is_request_uri tables.now.requests memory.now h p n) result }
    ensures kept { IfOk result (λ uri. IsTrue (is_uri uri)) }
    ensures badf { held tables.now.requests h ≡ None → result ≡ Err (Told Badf) }
{
    handled(&tables.requests, h)?;
    match memory.part(p, n) {
        None => Err(Refusal::Told(Status::Inval)),
        Some(text) => {
            unless(is_request_uri(text), Status::Httpinvalid)?;
            Ok(Octets::of(alloc, text)?)
        }
    }
}

fn set_uri(tables: &mut HttpTables, h: u32, uri: Octets)
    requires { IsTrue (is_uri uri) }
    ensures { tables.new ≡ with_request tables.old h (λ r. record r { uri = uri }) }
{
    if let Some(head) = tables.requests.get_mut(h) {
        head.set_uri(uri);
    }
}

/// Sets the uri: `http://` or `https://`, an authority, and the rest.
pub fn http_req_uri_set(
    alloc: Global,
    tables: &mut HttpTables,
    memory: &mut Memory,
    h: u32,
    p: u32,
    n: u32,
) -> Result<Status, AllocError>
    ensures row { IfOk result (λ status. Ends (spec.http_req_uri_set tables.old memory.old h p n) status tables.new memory.new) }
    ensures badf { held tables.old.requests h ≡ None → result ≡ Ok Badf }
{
    match uri_asked(alloc, tables, memory, h, p, n) {
        Ok(text) => {
            set_uri(tables, h, text);
            Ok(Status::Ok)
        }
        Err(Refusal::Told(status)) => Ok(status),
        Err(Refusal::OutOfMemory) => Err(AllocError),
    }
}

/// The request that the guest answers, and its body, where they weren't given yet and there is room for both handles.
fn downstream_asked(tables: &HttpTables, memory: &Memory, o: u32, p: u32) -> Result<(), Refusal>
    ensures { result ≡ spec.downstream_asked tables.now memory.now o p }
{
    placed(memory, o, 4)?;
    placed(memory, p, 4)?;
    unless(
        tables.head.is_some() && tables.body.is_some(),
        Status::Inval,
    )?;
    unless(!tables.requests.is_full(), Status::Limitexceeded)?;
    unless(!tables.bodies.is_full(), Status::Limitexceeded)
}

fn give_downstream(
    alloc: Global,
    tables: &mut HttpTables,
    memory: &mut Memory,
    o: u32,
    p: u32,
) -> Result<Status, AllocError>
    requires { spec.downstream_asked tables.old memory.old o p ≡ Ok tt }
    ensures { IfOk result (λ status. Ends (spec.http_req_body_downstream_get tables.old memory.old o p) status tables.new memory.new) }
{
    let Some(head) = tables.head.take() else {
        return Err(AllocError);
    };
    let Some(bytes) = tables.body.take() else {
        return Err(AllocError);
    };
    let mut body = Body::new(alloc);
    body.push_back(Part::Own(bytes))?;
    let Ok(request) = tables.requests.add(head) else {
        return Err(AllocError);
    };
    let Ok(body) = tables.bodies.add(BodyState::Held(body)) else {
        return Err(AllocError);
    };
    put_number(memory, o, 4, u64::from(request));
    put_number(memory, p, 4, u64::from(body));
    Ok(Status::Ok)
}

/// Gives the request that the guest is to answer, and its body, once.
pub fn http_req_body_downstream_get(
    alloc: Global,
    tables: &mut HttpTables,
    memory: &mut Memory,
    o: u32,
    p: u32,
) -> Result<Status, AllocError>
    ensures { IfOk result (λ status. Ends (spec.http_req_body_downstream_get tables.old memory.old o p) status tables.new memory.new) }
{
    match downstream_asked(tables, memory, o, p) {
        Ok(()) => give_downstream(alloc, tables, memory, o, p),
        Err(Refusal::Told(status)) => Ok(status),
        Err(Refusal::OutOfMemory) => Err(AllocError),
    }
}
