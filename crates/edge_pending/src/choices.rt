//! Handles of which one is chosen.
ghost use Rattle.std.specs.Prelude.{◌≡◌, ◌≤◌, ◌*◌, Ok, Err, None, false, IfOk, IsTrue, length, slice_get};
ghost use Rattle.std.specs.List.{list_all};
ghost use Rattle.wasm_memory.specs.Linear.{Linear};
ghost use Rattle.edge_abi.specs.declared.asked.Step.TheVariants.{Done};
ghost use Rattle.edge_abi.specs.declared.status.Refusal.TheVariants.{Told};
ghost use Rattle.edge_abi.specs.declared.status.Status.TheVariants.{Badf};
ghost use Rattle.edge_abi.specs.Goes.{Goes};
ghost use Rattle.edge_abi.specs.Memory.{has_range};
ghost use Rattle.edge_abi.specs.Refusals.{Judges};
ghost use Rattle.edge_http_calls.specs.declared.tables.HttpTables.{HttpTables as Messages};
ghost use Rattle.edge_link.specs.Readings.{Reading, IsReading};
ghost use Rattle.edge_pending.specs.Choices.{first_kept, is_held, words};
ghost use Rattle.edge_pending.specs.Rows as spec;
ghost use Rattle.edge_pending.specs.Tables.{HttpAndPending, both};

use crate::handles::{first_kept, is_choice, listed, tickets_of};
use crate::received::error;
use crate::sends::room_for_both;
use crate::tables::PendingTables;
use crate::under_way::{Lead, PendingStep, Places, UnderWay};
use crate::waits::waits;
use cache_types::{Items, OuterCall, OuterReply};
use edge_abi::{Refusal, Status, Step, placed, put_number, unless};
use edge_http_calls::HttpTables;
use std::alloc::{AllocError, Global};
use wasm_memory::Memory;

fn choose_asked(
    alloc: Global,
    http: &HttpTables,
    tables: &PendingTables,
    memory: &Memory,
    p: u32,
    count: u32,
    o1: u32,
    o2: u32,
    o3: u32,
) -> Result<Items<u32>, Refusal>
    ensures asked { Judges (spec.choose_asked (both http.now tables.now) memory.now p count o1 o2 o3) result }
    ensures badf { IsTrue (has_range memory.now p (4 * count)) → list_all (is_held tables.now.pending) (words memory.now p count) ≡ false → result ≡ Err (Told Badf) }
{
    let handles = listed(alloc, &tables.pending, memory, p, count)?;
    placed(memory, o1, 4)?;
    placed(memory, o2, 4)?;
    placed(memory, o3, 4)?;
    unless(is_choice(handles.items()), Status::Inval)?;
    room_for_both(http)?;
    Ok(handles)
}

fn select_asked(
    alloc: Global,
    tables: &PendingTables,
    memory: &Memory,
    p: u32,
    count: u32,
    timeout: u32,
    o: u32,
) -> Result<Items<u32>, Refusal>
    ensures asked { Judges (spec.select_asked tables.now memory.now p count timeout o) result }
    ensures badf { IsTrue (has_range memory.now p (4 * count)) → list_all (is_held tables.now.pending) (words memory.now p count) ≡ false → result ≡ Err (Told Badf) }
{
    let handles = listed(alloc, &tables.pending, memory, p, count)?;
    placed(memory, o, 4)?;
    unless(is_choice(handles.items()), Status::Inval)?;
    unless(timeout == 0, Status::Unsupported)?;
    Ok(handles)
}

/// The response of the handle at this place is told, behind the place.
fn chosen_at(
    alloc: Global,
    http: &mut HttpTables,
    tables: &mut PendingTables,
    memory: &mut Memory,
    handle: Option<u32>,
    index: u32,
    o1: u32,
    o2: u32,
    o3: u32,
) -> Result<PendingStep, AllocError>
    ensures { (reads : Reading) → IsReading reads
        → IfOk result (λ step. Goes (spec.resumed reads) (spec.chosen_at reads (both http.old tables.old) memory.old index o1 o2 o3 handle) step (both http.new tables.new) memory.new) }
{
    match handle {
        Some(h) => {
            let places = Places {
                lead: Lead::Number {
                    place: o1,
                    value: index,
                },
                response: o2,
                body: o3,
            };
            waits(alloc, http, tables, memory, h, places)
        }
        None => Ok(error()),
    }
}

/// The handle at a place.
fn handle_at(handles: &[u32], index: usize) -> Option<u32>
    ensures { result ≡ slice_get handles.now index }
{
    handles.get(index).copied()
}

/// The link chooses one of these.
fn asks_any(
    alloc: Global,
    tables: &PendingTables,
    handles: Items<u32>,
    o1: u32,
    o2: u32,
    o3: u32,
) -> Result<PendingStep, AllocError>
    ensures { (reads : Reading) (http : Messages) (m : Linear)
        → IfOk result (λ step. Goes (spec.resumed reads) (spec.chooses reads (both http tables.now) m handles o1 o2 o3 None) step (both http tables.now) m) }
{
    let tickets = tickets_of(alloc, &tables.pending, handles.items())?;
    let under = UnderWay::Choosing {
        handles,
        index: o1,
        response: o2,
        body: o3,
    };
    Ok(Step::Outer(OuterCall::AnyOf { tickets }, under))
}

/// Chooses a handle, and tells its response.
fn chooses(
    alloc: Global,
    http: &mut HttpTables,
    tables: &mut PendingTables,
    memory: &mut Memory,
    handles: Items<u32>,
    o1: u32,
    o2: u32,
    o3: u32,
) -> Result<PendingStep, AllocError>
    requires { length handles ≤ 100 }
    ensures { (reads : Reading) → IsReading reads
        → IfOk result (λ step. Goes (spec.resumed reads) (spec.chooses reads (both http.old tables.old) memory.old handles o1 o2 o3 (first_kept tables.old.pending handles)) step (both http.new tables.new) memory.new) }
{
    match first_kept(&tables.pending, handles.items()) {
        Some(index) => {
            let handle = handle_at(handles.items(), index);
            chosen_at(
                alloc,
                http,
                tables,
                memory,
                handle,
                index as u32,
                o1,
                o2,
                o3,
            )
        }
        None => asks_any(alloc, tables, handles, o1, o2, o3),
    }
}

/// Chooses one of some handles: its place among them, and its response.
pub fn http_req_pending_req_select(
    alloc: Global,
    http: &mut HttpTables,
    tables: &mut PendingTables,
    memory: &mut Memory,
    p: u32,
    count: u32,
    o1: u32,
    o2: u32,
    o3: u32,
) -> Result<PendingStep, AllocError>
    ensures row { (reads : Reading) → IsReading reads
        → IfOk result (λ step. Goes (spec.resumed reads) (spec.http_req_pending_req_select reads (both http.old tables.old) memory.old p count o1 o2 o3) step (both http.new tables.new) memory.new) }
    ensures badf { IsTrue (has_range memory.old p (4 * count)) → list_all (is_held tables.old.pending) (words memory.old p count) ≡ false → result ≡ Ok (Done 3) }
{
    match choose_asked(alloc, http, tables, memory, p, count, o1, o2, o3) {
        Ok(handles) => chooses(alloc, http, tables, memory, handles, o1, o2, o3),
        Err(Refusal::Told(status)) => Ok(Step::Done(status.number())),
        Err(Refusal::OutOfMemory) => Err(AllocError),
    }
}

/// Goes on with handles of which the link chose one.
pub fn chosen(
    alloc: Global,
    http: &mut HttpTables,
    tables: &mut PendingTables,
    memory: &mut Memory,
    handles: Items<u32>,
    o1: u32,
    o2: u32,
    o3: u32,
    reply: &OuterReply,
) -> Result<PendingStep, AllocError>
    ensures { (reads : Reading) → IsReading reads
        → IfOk result (λ step. Goes (spec.resumed reads) (spec.chosen reads (both http.old tables.old) memory.old handles o1 o2 o3 reply.now) step (both http.new tables.new) memory.new) }
{
    match reply {
        OuterReply::Index(index) => {
            let handle = handle_at(handles.items(), *index as usize);
            chosen_at(alloc, http, tables, memory, handle, *index, o1, o2, o3)
        }
        _ => Ok(error()),
    }
}

/// Chooses a handle: its place among them is told.
fn picks(
    alloc: Global,
    tables: &PendingTables,
    memory: &mut Memory,
    handles: &Items<u32>,
    o: u32,
) -> Result<PendingStep, AllocError>
    requires { length handles.now ≤ 100 }
    ensures { (reads : Reading) (http : Messages)
        → IfOk result (λ step. Goes (spec.resumed reads) (spec.picks reads (both http tables.now) memory.old handles.now o (first_kept tables.now.pending handles.now)) step (both http tables.now) memory.new) }
{
    match first_kept(&tables.pending, handles.items()) {
        Some(index) => {
            put_number(memory, o, 4, index as u64);
            Ok(Step::Done(Status::Ok.number()))
        }
        None => {
            let tickets = tickets_of(alloc, &tables.pending, handles.items())?;
            Ok(Step::Outer(OuterCall::AnyOf { tickets }, UnderWay::Picking { index: o }))
        }
    }
}

/// Chooses one of some handles: its place among them alone.
pub fn async_select(
    alloc: Global,
    http: &mut HttpTables,
    tables: &mut PendingTables,
    memory: &mut Memory,
    p: u32,
    count: u32,
    timeout: u32,
    o: u32,
) -> Result<PendingStep, AllocError>
    ensures row { (reads : Reading) → IsReading reads
        → IfOk result (λ step. Goes (spec.resumed reads) (spec.async_select reads (both http.old tables.old) memory.old p count timeout o) step (both http.new tables.new) memory.new) }
    ensures badf { IsTrue (has_range memory.old p (4 * count)) → list_all (is_held tables.old.pending) (words memory.old p count) ≡ false → result ≡ Ok (Done 3) }
{
    match select_asked(alloc, tables, memory, p, count, timeout, o) {
        Ok(handles) => picks(alloc, tables, memory, &handles, o),
        Err(Refusal::Told(status)) => Ok(Step::Done(status.number())),
        Err(Refusal::OutOfMemory) => Err(AllocError),
    }
}

/// Goes on with handles of which the link picked one.
pub fn picked(memory: &mut Memory, o: u32, reply: &OuterReply) -> PendingStep
    ensures { (reads : Reading) (t : HttpAndPending) → Goes (spec.resumed reads) (spec.picked reads t memory.old o reply.now) result t memory.new }
{
    match reply {
        OuterReply::Index(index) => {
            put_number(memory, o, 4, u64::from(*index));
            Step::Done(Status::Ok.number())
        }
        _ => error(),
    }
}
