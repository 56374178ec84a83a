//! The rows of `fastly_http_body`, in the cases that make no outer call: on bodies that the guest holds.
ghost use Rattle.std.specs.Prelude.{◌≡◌, IsTrue, Ok, Err, None, Some, IfOk, IfErr, OnOk};
ghost use Rattle.edge_abi.specs.declared.status.Status.TheVariants.{Badf};
ghost use Rattle.edge_abi.specs.Goes.{Ends};
ghost use Rattle.edge_abi.specs.Tables.{held};
ghost use Rattle.edge_http_calls.specs.Bodies as spec;
ghost use Rattle.edge_http_calls.specs.Requests.{newly};
ghost use Rattle.edge_http_calls.specs.Tables.{is_kept};

use crate::asked::{handled, newly};
use crate::tables::{BodyState, HttpTables};
use cache_types::Octets;
use edge_abi::{Refusal, Status, placed, put_number, ranged, unless};
use edge_body::{Body, Part};
use std::alloc::{AllocError, Global};
use wasm_memory::Memory;

fn add_body(
    alloc: Global,
    tables: &mut HttpTables,
    memory: &mut Memory,
    o: u32,
) -> Result<Status, AllocError>
    requires { newly tables.old.bodies memory.old o ≡ Ok tt }
    ensures { IfOk result (λ status. Ends (spec.http_body_new tables.old memory.old o) status tables.new memory.new) }
{
    match tables.bodies.add(BodyState::Held(Body::new(alloc))) {
        Ok(number) => {
            put_number(memory, o, 4, u64::from(number));
            Ok(Status::Ok)
        }
        Err(_) => Err(AllocError),
    }
}

/// Makes an empty body.
pub fn http_body_new(
    alloc: Global,
    tables: &mut HttpTables,
    memory: &mut Memory,
    o: u32,
) -> Result<Status, AllocError>
    ensures { IfOk result (λ status. Ends (spec.http_body_new tables.old memory.old o) status tables.new memory.new) }
{
    match newly(&tables.bodies, memory, o) {
        Ok(()) => add_body(alloc, tables, memory, o),
        Err(Refusal::Told(status)) => Ok(status),
        Err(Refusal::OutOfMemory) => Err(AllocError),
    }
}

/// Drops a body that is held.
pub fn http_body_close(
    _alloc: Global,
    tables: &mut HttpTables,
    memory: &mut Memory,
    h: u32,
) -> Result<Status, AllocError>
    requires { IsTrue (is_kept (held tables.old.bodies h)) }
    ensures row { IfOk result (λ status. Ends (spec.http_body_close tables.old memory.old h) status tables.new memory.new) }
    ensures badf { held tables.old.bodies h ≡ None → result ≡ Ok Badf }
{
    match tables.bodies.get(h) {
        Some(_) => {
            tables.bodies.take(h);
            Ok(Status::Ok)
        }
        None => Ok(Status::Badf),
    }
}

/// Drops a body that is held.
pub fn http_body_abandon(
    _alloc: Global,
    tables: &mut HttpTables,
    memory: &mut Memory,
    h: u32,
) -> Result<Status, AllocError>
    requires { IsTrue (is_kept (held tables.old.bodies h)) }
    ensures row { IfOk result (λ status. Ends (spec.http_body_abandon tables.old memory.old h) status tables.new memory.new) }
    ensures badf { held tables.old.bodies h ≡ None → result ≡ Ok Badf }
{
    match tables.bodies.get(h) {
        Some(_) => {
            tables.bodies.take(h);
            Ok(Status::Ok)
        }
        None => Ok(Status::Badf),
    }
}

/// How many bytes a body has.
fn length_of(state: &BodyState) -> Option<u64>
    ensures { result ≡ spec.length_of state.now }
{
    match state {
        BodyState::Held(body) => body.known_length(),
        _ => None,
    }
}

fn length_asked(tables: &HttpTables, memory: &Memory, h: u32, o: u32) -> Result<u64, Refusal>
    ensures { result ≡ spec.length_asked tables.now memory.now h o }
{
    let state = handled(&tables.bodies, h)?;
    placed(memory, o, 8)?;
    match length_of(state) {
        Some(length) => Ok(length),
        None => Err(Refusal::Told(Status::None)),
    }
}

/// Tells how many bytes a held body has, where that is known.
pub fn http_body_known_length(
    _alloc: Global,
    tables: &mut HttpTables,
    memory: &mut Memory,
    h: u32,
    o: u32,
) -> Result<Status, AllocError>
    ensures row { IfOk result (λ status. Ends (spec.http_body_known_length tables.old memory.old h o) status tables.new memory.new) }
    ensures badf { held tables.old.bodies h ≡ None → result ≡ Ok Badf }
{
    match length_asked(tables, memory, h, o) {
        Ok(length) => {
            put_number(memory, o, 8, length);
            Ok(Status::Ok)
        }
        Err(Refusal::Told(status)) => Ok(status),
        Err(Refusal::OutOfMemory) => Err(AllocError),
    }
}
