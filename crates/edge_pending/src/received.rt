//! Responses that came: their handles are told, or why there are none.
ghost use Rattle.std.specs.Prelude.{◌≡◌, ℕ, List, Result, IfOk, OnOk};
ghost use Rattle.edge_abi.specs.Goes.{Ends};
ghost use Rattle.edge_body.specs.Heads.{Response};
ghost use Rattle.edge_link.specs.Readings.{Reading, IsReading, Agrees};
ghost use Rattle.edge_link.specs.declared.fault.ResponseFault.{ResponseFault as Fault};
ghost use Rattle.edge_pending.specs.Rows as spec;
ghost use Rattle.edge_pending.specs.Tables as tables;
ghost use Rattle.edge_pending.specs.Tables.{both};
ghost use Rattle.edge_pending.specs.declared.tables.PendingTables.{PendingTables as Handles};

use crate::tables::add;
use crate::under_way::{Lead, PendingStep, Places};
use cache_types::Octets;
use edge_abi::{Status, Step, put_number};
use edge_body::{Body, Part, ResponseHead};
use edge_http_calls::{BodyState, HttpTables};
use edge_link::{ResponseFault, read_response};
use std::alloc::{AllocError, Global};
use wasm_memory::Memory;

fn lead(memory: &mut Memory, lead: Lead)
    ensures { memory.new ≡ spec.led lead memory.old }
{
    match lead {
        Lead::Nothing => {}
        Lead::Number { place, value } => put_number(memory, place, 4, u64::from(value)),
    }
}

/// A held body of these bytes.
fn held_body(alloc: Global, bytes: Octets) -> Result<BodyState, AllocError>
    ensures { IfOk result (λ state. state ≡ tables.body_of bytes) }
{
    let mut body = Body::new(alloc);
    body.push_back(Part::Own(bytes))?;
    Ok(BodyState::Held(body))
}

/// A response and its body more, whose handles are told.
fn given(
    alloc: Global,
    http: &mut HttpTables,
    memory: &mut Memory,
    places: Places,
    head: ResponseHead,
    bytes: Octets,
) -> Result<(), AllocError>
    ensures tables { OnOk result (http.new ≡ tables.with_both http.old head bytes) }
    ensures memory { OnOk result (memory.new ≡ spec.told_both http.old memory.old places) }
{
    let state = held_body(alloc, bytes)?;
    lead(memory, places.lead);
    add(&mut http.responses, memory, head, places.response)?;
    add(&mut http.bodies, memory, state, places.body)
}

/// What was read is told.
fn tell(
    alloc: Global,
    http: &mut HttpTables,
    memory: &mut Memory,
    places: Places,
    read: Result<(ResponseHead, Octets), ResponseFault>,
) -> Result<Status, AllocError>
    ensures { (handles : Handles) (meaning : Result (Response × List ℕ) Fault) → Agrees meaning read
        → IfOk result (λ status. Ends (spec.given (both http.old handles) memory.old places meaning) status (both http.new handles) memory.new) }
{
    match read {
        Ok((head, body)) => {
            given(alloc, http, memory, places, head, body)?;
            Ok(Status::Ok)
        }
        Err(ResponseFault::TooLarge) => Ok(Status::Limitexceeded),
        Err(ResponseFault::BadResponse) => Ok(Status::Httpinvalid),
        Err(ResponseFault::OutOfMemory) => Err(AllocError),
    }
}

/// The response to a request of this method that the bytes hold.
pub fn received(
    alloc: Global,
    http: &mut HttpTables,
    memory: &mut Memory,
    places: Places,
    method: &Octets,
    bytes: &Octets,
) -> Result<Status, AllocError>
    ensures { (reads : Reading) (handles : Handles) → IsReading reads
        → IfOk result (λ status. Ends (spec.received reads (both http.old handles) memory.old places method.now bytes.now) status (both http.new handles) memory.new) }
{
    let read = read_response(alloc, method, bytes.bytes());
    tell(alloc, http, memory, places, read)
}

/// The row is an error.
pub fn error() -> PendingStep
    ensures { result ≡ spec.error_step }
{
    Step::Done(Status::Error.number())
}
