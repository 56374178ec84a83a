//! One handle that is asked for its response.
ghost use Rattle.std.specs.Prelude.{◌≡◌, Ok, Err, None, IfOk};
ghost use Rattle.edge_abi.specs.declared.asked.Step.TheVariants.{Done};
ghost use Rattle.edge_abi.specs.Goes.{Goes};
ghost use Rattle.edge_abi.specs.Tables.{held};
ghost use Rattle.edge_link.specs.Readings.{Reading, IsReading};
ghost use Rattle.edge_pending.specs.Rows as spec;
ghost use Rattle.edge_pending.specs.Tables.{both, with_state};
ghost use Rattle.edge_http_calls.specs.declared.tables.HttpTables.{HttpTables as Messages};

use crate::received::error;
use crate::sends::room_for_both;
use crate::tables::{PendingState, PendingTables};
use crate::under_way::{Lead, PendingStep, Places, UnderWay};
use crate::waits::{Told, broken, came, taken, told_of, waits};
use cache_types::{Copied, OuterCall, OuterReply};
use edge_abi::{Refusal, Status, Step, placed, put_number};
use edge_http_calls::{HttpTables, handled};
use std::alloc::{AllocError, Global};
use wasm_memory::Memory;

fn poll_asked(
    http: &HttpTables,
    tables: &PendingTables,
    memory: &Memory,
    h: u32,
    o1: u32,
    o2: u32,
    o3: u32,
) -> Result<(), Refusal>
    ensures { result ≡ spec.poll_asked (both http.now tables.now) memory.now h o1 o2 o3 }
{
    handled(&tables.pending, h)?;
    placed(memory, o1, 4)?;
    placed(memory, o2, 4)?;
    placed(memory, o3, 4)?;
    room_for_both(http)
}

fn wait_asked(
    http: &HttpTables,
    tables: &PendingTables,
    memory: &Memory,
    h: u32,
    o1: u32,
    o2: u32,
) -> Result<(), Refusal>
    ensures { result ≡ spec.wait_asked (both http.now tables.now) memory.now h o1 o2 }
{
    handled(&tables.pending, h)?;
    placed(memory, o1, 4)?;
    placed(memory, o2, 4)?;
    room_for_both(http)
}

fn ready_asked(tables: &PendingTables, memory: &Memory, h: u32, o: u32) -> Result<(), Refusal>
    ensures { result ≡ spec.ready_asked tables.now memory.now h o }
{
    handled(&tables.pending, h)?;
    placed(memory, o, 4)
}

/// Where a response is told behind the number 1.
fn after_one(o1: u32, o2: u32, o3: u32) -> Places
    ensures { result ≡ spec.after_one o1 o2 o3 }
{
    Places {
        lead: Lead::Number {
            place: o1,
            value: 1,
        },
        response: o2,
        body: o3,
    }
}

/// Asks for the response of a handle, or tells what it keeps.
fn polls(
    alloc: Global,
    http: &mut HttpTables,
    tables: &mut PendingTables,
    memory: &mut Memory,
    h: u32,
    o1: u32,
    o2: u32,
    o3: u32,
) -> Result<PendingStep, AllocError>
    ensures { (reads : Reading) → IsReading reads
        → IfOk result (λ step. Goes (spec.resumed reads) (spec.polls reads (both http.old tables.old) memory.old h o1 o2 o3) step (both http.new tables.new) memory.new) }
{
    let places = after_one(o1, o2, o3);
    match told_of(alloc, tables, h)? {
        Told::Ask(ticket) => {
            let under = UnderWay::Polling {
                handle: h,
                ready: o1,
                response: o2,
                body: o3,
            };
            Ok(Step::Outer(OuterCall::Poll { ticket }, under))
        }
        Told::Came { method, bytes } => {
            taken(alloc, http, tables, memory, h, places, &method, &bytes)
        }
        Told::Broken => Ok(broken(http, tables, memory, h)),
        Told::Unknown => Ok(error()),
    }
}

/// Tells whether a response came, and then the response.
pub fn http_req_pending_req_poll(
    alloc: Global,
    http: &mut HttpTables,
    tables: &mut PendingTables,
    memory: &mut Memory,
    h: u32,
    o1: u32,
    o2: u32,
    o3: u32,
) -> Result<PendingStep, AllocError>
    ensures row { (reads : Reading) → IsReading reads
        → IfOk result (λ step. Goes (spec.resumed reads) (spec.http_req_pending_req_poll reads (both http.old tables.old) memory.old h o1 o2 o3) step (both http.new tables.new) memory.new) }
    ensures badf { held tables.old.pending h ≡ None → result ≡ Ok (Done 3) }
{
    match poll_asked(http, tables, memory, h, o1, o2, o3) {
        Ok(()) => polls(alloc, http, tables, memory, h, o1, o2, o3),
        Err(Refusal::Told(status)) => Ok(Step::Done(status.number())),
        Err(Refusal::OutOfMemory) => Err(AllocError),
    }
}

/// Goes on with a row that asked whether a response came.
pub fn polled(
    alloc: Global,
    http: &mut HttpTables,
    tables: &mut PendingTables,
    memory: &mut Memory,
    h: u32,
    o1: u32,
    o2: u32,
    o3: u32,
    reply: &OuterReply,
) -> Result<PendingStep, AllocError>
    ensures { (reads : Reading) → IsReading reads
        → IfOk result (λ step. Goes (spec.resumed reads) (spec.polled reads (both http.old tables.old) memory.old h o1 o2 o3 reply.now) step (both http.new tables.new) memory.new) }
{
    match reply {
        OuterReply::NotReady => {
            put_number(memory, o1, 4, 0);
            Ok(Step::Done(Status::Ok.number()))
        }
        other => came(alloc, http, tables, memory, h, after_one(o1, o2, o3), other),
    }
}

/// Waits for a response.
pub fn http_req_pending_req_wait(
    alloc: Global,
    http: &mut HttpTables,
    tables: &mut PendingTables,
    memory: &mut Memory,
    h: u32,
    o1: u32,
    o2: u32,
) -> Result<PendingStep, AllocError>
    ensures row { (reads : Reading) → IsReading reads
        → IfOk result (λ step. Goes (spec.resumed reads) (spec.http_req_pending_req_wait reads (both http.old tables.old) memory.old h o1 o2) step (both http.new tables.new) memory.new) }
    ensures badf { held tables.old.pending h ≡ None → result ≡ Ok (Done 3) }
{
    match wait_asked(http, tables, memory, h, o1, o2) {
        Ok(()) => {
            let places = Places {
                lead: Lead::Nothing,
                response: o1,
                body: o2,
            };
            waits(alloc, http, tables, memory, h, places)
        }
        Err(Refusal::Told(status)) => Ok(Step::Done(status.number())),
        Err(Refusal::OutOfMemory) => Err(AllocError),
    }
}

/// Asks for the response of a handle, or tells that it keeps one.
fn peeks(
    alloc: Global,
    tables: &PendingTables,
    memory: &mut Memory,
    h: u32,
    o: u32,
) -> Result<PendingStep, AllocError>
    ensures { (reads : Reading) (http : Messages)
        → IfOk result (λ step. Goes (spec.resumed reads) (spec.peeks reads (both http tables.now) memory.old h o (spec.told_of (held tables.now.pending h))) step (both http tables.now) memory.new) }
{
    match told_of(alloc, tables, h)? {
        Told::Ask(ticket) => Ok(Step::Outer(
            OuterCall::Poll { ticket },
            UnderWay::Peeking {
                handle: h,
                place: o,
            },
        )),
        Told::Unknown => Ok(error()),
        _ => {
            put_number(memory, o, 4, 1);
            Ok(Step::Done(Status::Ok.number()))
        }
    }
}

/// Tells whether a response came; it is kept.
pub fn async_is_ready(
    alloc: Global,
    http: &mut HttpTables,
    tables: &mut PendingTables,
    memory: &mut Memory,
    h: u32,
    o: u32,
) -> Result<PendingStep, AllocError>
    ensures row { (reads : Reading) → IsReading reads
        → IfOk result (λ step. Goes (spec.resumed reads) (spec.async_is_ready reads (both http.old tables.old) memory.old h o) step (both http.new tables.new) memory.new) }
    ensures badf { held tables.old.pending h ≡ None → result ≡ Ok (Done 3) }
{
    match ready_asked(tables, memory, h, o) {
        Ok(()) => peeks(alloc, tables, memory, h, o),
        Err(Refusal::Told(status)) => Ok(Step::Done(status.number())),
        Err(Refusal::OutOfMemory) => Err(AllocError),
    }
}

/// A handle keeps what came.
fn keep(tables: &mut PendingTables, h: u32, state: PendingState)
    ensures { (http : Messages) → both http tables.new ≡ with_state (both http tables.old) h state }
{
    if let Some(pending) = tables.pending.get_mut(h) {
        pending.state = state;
    }
}

/// Goes on with a row that asked for a response to be kept.
pub fn peeked(
    alloc: Global,
    tables: &mut PendingTables,
    memory: &mut Memory,
    h: u32,
    o: u32,
    reply: &OuterReply,
) -> Result<PendingStep, AllocError>
    ensures { (reads : Reading) (http : Messages)
        → IfOk result (λ step. Goes (spec.resumed reads) (spec.peeked reads (both http tables.old) memory.old h o reply.now) step (both http tables.new) memory.new) }
{
    match reply {
        OuterReply::NotReady => {
            put_number(memory, o, 4, 0);
            Ok(Step::Done(Status::Ok.number()))
        }
        OuterReply::Ready(bytes) => {
            keep(tables, h, PendingState::Came(bytes.copy(alloc)?));
            put_number(memory, o, 4, 1);
            Ok(Step::Done(Status::Ok.number()))
        }
        OuterReply::LinkFailed => {
            keep(tables, h, PendingState::Broken);
            put_number(memory, o, 4, 1);
            Ok(Step::Done(Status::Ok.number()))
        }
        _ => Ok(error()),
    }
}
