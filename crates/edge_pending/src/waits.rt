//! Handles whose response is told: by the link, or as it was kept.
ghost use Rattle.std.specs.Prelude.{◌≡◌, Some, IfOk};
ghost use Rattle.edge_abi.specs.Goes.{Goes};
ghost use Rattle.edge_abi.specs.Tables.{held};
ghost use Rattle.edge_link.specs.Readings.{Reading, IsReading};
ghost use Rattle.edge_pending.specs.Rows as spec;
ghost use Rattle.edge_pending.specs.Tables.{both, without_pending};

use crate::received::{error, received};
use crate::tables::{Pending, PendingState, PendingTables};
use crate::under_way::{PendingStep, Places, UnderWay};
use cache_types::{Copied, Octets, OuterCall, OuterReply};
use edge_abi::{Status, Step};
use edge_http_calls::HttpTables;
use std::alloc::{AllocError, Global};
use wasm_memory::Memory;

/// What a handle asks the link, or what it kept.
#[derive(Drop)]
pub enum Told {
    Ask(u64),
    Came { method: Octets, bytes: Octets },
    Broken,
    Unknown,
}

fn state_told(alloc: Global, pending: &Pending) -> Result<Told, AllocError>
    ensures { IfOk result (λ told. told ≡ spec.told_by pending.now) }
{
    match &pending.state {
        PendingState::Ticket(ticket) => Ok(Told::Ask(*ticket)),
        PendingState::Came(bytes) => Ok(Told::Came {
            method: pending.method.copy(alloc)?,
            bytes: bytes.copy(alloc)?,
        }),
        PendingState::Broken => Ok(Told::Broken),
    }
}

/// What a handle has.
pub fn told_of(alloc: Global, tables: &PendingTables, h: u32) -> Result<Told, AllocError>
    ensures { IfOk result (λ told. told ≡ spec.told_of (held tables.now.pending h)) }
{
    match tables.pending.get(h) {
        Some(pending) => state_told(alloc, pending),
        None => Ok(Told::Unknown),
    }
}

/// The method of a handle's request.
fn method_of(alloc: Global, tables: &PendingTables, h: u32) -> Result<Option<Octets>, AllocError>
    ensures { IfOk result (λ method. method ≡ spec.method_of (held tables.now.pending h)) }
{
    match tables.pending.get(h) {
        Some(pending) => Ok(Some(pending.method.copy(alloc)?)),
        None => Ok(None),
    }
}

/// The handle is taken, and its response is told.
pub fn taken(
    alloc: Global,
    http: &mut HttpTables,
    tables: &mut PendingTables,
    memory: &mut Memory,
    h: u32,
    places: Places,
    method: &Octets,
    bytes: &Octets,
) -> Result<PendingStep, AllocError>
    ensures { (reads : Reading) → IsReading reads
        → IfOk result (λ step. Goes (spec.resumed reads) (spec.received reads (without_pending (both http.old tables.old) h) memory.old places method.now bytes.now) step (both http.new tables.new) memory.new) }
{
    tables.pending.take(h);
    let status = received(alloc, http, memory, places, method, bytes)?;
    Ok(Step::Done(status.number()))
}

/// The handle is taken, since the link failed.
pub fn broken(http: &HttpTables, tables: &mut PendingTables, memory: &Memory, h: u32) -> PendingStep
    ensures { (reads : Reading) → Goes (spec.resumed reads) (spec.broke (both http.now tables.old) memory.now h) result (both http.now tables.new) memory.now }
{
    tables.pending.take(h);
    Step::Done(Status::Error.number())
}

/// Goes on with a row that asked for the response to a request of this method.
fn came_by(
    alloc: Global,
    http: &mut HttpTables,
    tables: &mut PendingTables,
    memory: &mut Memory,
    h: u32,
    places: Places,
    method: &Octets,
    reply: &OuterReply,
) -> Result<PendingStep, AllocError>
    ensures { (reads : Reading) → IsReading reads
        → IfOk result (λ step. Goes (spec.resumed reads) (spec.came_by reads (both http.old tables.old) memory.old h places (Some method.now) reply.now) step (both http.new tables.new) memory.new) }
{
    match reply {
        OuterReply::Ready(bytes) => { taken(alloc, http, tables, memory, h, places, method, bytes) }
        OuterReply::LinkFailed => Ok(broken(http, tables, memory, h)),
        _ => Ok(error()),
    }
}

/// Goes on with a row that asked for a handle's response.
pub fn came(
    alloc: Global,
    http: &mut HttpTables,
    tables: &mut PendingTables,
    memory: &mut Memory,
    h: u32,
    places: Places,
    reply: &OuterReply,
) -> Result<PendingStep, AllocError>
    ensures { (reads : Reading) → IsReading reads
        → IfOk result (λ step. Goes (spec.resumed reads) (spec.came reads (both http.old tables.old) memory.old h places reply.now) step (both http.new tables.new) memory.new) }
{
    match method_of(alloc, tables, h)? {
        Some(method) => came_by(alloc, http, tables, memory, h, places, &method, reply),
        None => Ok(error()),
    }
}

/// Waits for the response of a handle, or tells what it keeps.
pub fn waits(
    alloc: Global,
    http: &mut HttpTables,
    tables: &mut PendingTables,
    memory: &mut Memory,
    h: u32,
    places: Places,
) -> Result<PendingStep, AllocError>
    ensures { (reads : Reading) → IsReading reads
        → IfOk result (λ step. Goes (spec.resumed reads) (spec.waits reads (both http.old tables.old) memory.old h places) step (both http.new tables.new) memory.new) }
{
    match told_of(alloc, tables, h)? {
        Told::Ask(ticket) => Ok(Step::Outer(
            OuterCall::WaitFor { ticket },
            UnderWay::Waiting { handle: h, places },
        )),
        Told::Came { method, bytes } => {
            taken(alloc, http, tables, memory, h, places, &method, &bytes)
        }
        Told::Broken => Ok(broken(http, tables, memory, h)),
        Told::Unknown => Ok(error()),
    }
}
