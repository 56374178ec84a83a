//! Lists of pending handles in the memory of a guest.
ghost use Rattle.std.specs.Prelude.{◌≡◌, ◌+◌, ◌*◌, ◌≤◌, ◌<◌, Ok, Err, false, IfOk, IfErr, IfSome, IsTrue, length, option_copied, slice_get};
ghost use Rattle.std.specs.List.{list_all};
ghost use Rattle.edge_abi.specs.declared.status.Refusal.TheVariants.{Told};
ghost use Rattle.edge_abi.specs.declared.status.Status.TheVariants.{Badf};
ghost use Rattle.edge_abi.specs.Memory.{has_range};
ghost use Rattle.edge_abi.specs.Refusals.{Judges};
ghost use Rattle.edge_abi.specs.Tables.{held};
ghost use Rattle.edge_pending.specs.Choices as spec;
ghost use Rattle.edge_pending.specs.Tables as tables;

use crate::tables::{Pending, PendingState};
use cache_types::{Items, Numbers};
use edge_abi::{Refusal, Status, Table, unless};
use std::alloc::{AllocError, Global};
use wasm_memory::Memory;

/// The number in four bytes.
fn word_at(memory: &Memory, place: u64) -> u32
    requires { place + 4 ≤ length memory.now.bytes }
    ensures { result ≡ spec.word_at memory.now place }
{
    match memory.load(place, 4) {
        Ok(number) => number as u32,
        Err(_) => unreachable!(),
    }
}

/// Each of the handles from a place on names something.
fn are_held(table: &Table<Pending>, memory: &Memory, p: u32, count: u32) -> bool
    requires { p + 4 * count ≤ length memory.now.bytes }
    ensures { result ≡ list_all (spec.is_held table.now) (spec.words memory.now p count) }
{
    let mut place = u64::from(p);
    let mut left = u64::from(count);
    'words: while 0 < left {
        if table.get(word_at(memory, place)).is_none() {
            return false;
        }
        place += 4;
        left -= 1;
    }
    true
}

/// The handles from a place on.
fn words(alloc: Global, memory: &Memory, p: u32, count: u32) -> Result<Items<u32>, AllocError>
    requires { p + 4 * count ≤ length memory.now.bytes }
    ensures { IfOk result (λ handles. handles ≡ spec.words memory.now p count) }
{
    let mut handles = Vec::new(alloc);
    let mut place = u64::from(p);
    let mut left = u64::from(count);
    'words: while 0 < left {
        handles.push(word_at(memory, place))?;
        place += 4;
        left -= 1;
    }
    Ok(Items::of(handles))
}

/// A list of handles that name something: inval out of bounds, then badf.
pub fn listed(
    alloc: Global,
    table: &Table<Pending>,
    memory: &Memory,
    p: u32,
    count: u32,
) -> Result<Items<u32>, Refusal>
    ensures asked { Judges (spec.listed table.now memory.now p count) result }
    ensures badf { IsTrue (has_range memory.now p (4 * count)) → list_all (spec.is_held table.now) (spec.words memory.now p count) ≡ false → result ≡ Err (Told Badf) }
{
    unless(
        memory.is_inside(u64::from(p), 4 * u64::from(count)),
        Status::Inval,
    )?;
    unless(are_held(table, memory, p, count), Status::Badf)?;
    Ok(words(alloc, memory, p, count)?)
}

fn are_different(handles: &[u32]) -> bool
    ensures { result ≡ spec.are_different handles.now }
{
    let mut rest = handles;
    while let Some((handle, others)) = rest.split_first() {
        if others.contains(handle) {
            return false;
        }
        rest = others;
    }
    true
}

/// From 1 to 100 handles, which are different.
pub fn is_choice(handles: &[u32]) -> bool
    ensures { result ≡ spec.is_choice handles.now }
{
    1 <= handles.len() && handles.len() <= 100 && are_different(handles)
}

fn keeps(table: &Table<Pending>, handle: u32) -> bool
    ensures { result ≡ tables.is_kept (held table.now handle) }
{
    match table.get(handle) {
        Some(pending) => match pending.state {
            PendingState::Ticket(_) => false,
            _ => true,
        },
        None => false,
    }
}

fn ticket_of(table: &Table<Pending>, handle: u32) -> u64
    ensures { result ≡ tables.ticket_in (held table.now handle) }
{
    match table.get(handle) {
        Some(pending) => match pending.state {
            PendingState::Ticket(ticket) => ticket,
            _ => 0,
        },
        None => 0,
    }
}

/// Where the first handle stands that keeps what came.
pub fn first_kept(table: &Table<Pending>, handles: &[u32]) -> Option<usize>
    ensures place { result ≡ spec.first_kept table.now handles.now }
    ensures within { IfSome result (λ place. place < length handles.now) }
{
    handles.iter().position(|handle| keeps(table, *handle))
}

/// The tickets of handles.
pub fn tickets_of(
    alloc: Global,
    table: &Table<Pending>,
    handles: &[u32],
) -> Result<Numbers, AllocError>
    ensures { IfOk result (λ tickets. tickets ≡ spec.tickets_of table.now handles.now) }
{
    let mut tickets = Vec::new(alloc);
    for handle in handles {
        tickets.push(ticket_of(table, *handle))?;
    }
    Ok(Items::of(tickets))
}
