//! Lists that rows write into buffers: from an item on as many whole items as fit, each with a NUL behind it.
ghost use Rattle.std.specs.Prelude.{◌≡◌, ◌+◌, ◌<◌, ◌≤◌, ◌^◌, ◌++◌, [], IsTrue, OnOk, IfErr, length, take, drop, slice_index_or};
ghost use Rattle.edge_abi.specs.declared.octets.AbiFault.TheVariants.{BufLen};
ghost use Rattle.edge_abi.specs.Memory.{has_range, put};
ghost use Rattle.edge_abi.specs.Buffers.{ended, joined, fits, next_number, items_put, left_put, listed, kept};
ghost use Rattle.edge_abi.specs.Faults.{list_written, Writes};

use crate::memory::put_number;
use crate::octets::{AbiFault, number_room, octets_room};
use crate::status::Status;
use cache_types::{Octets, OctetsList};
use wasm_memory::Memory;

/// How many of the first items fit, each with its NUL.
fn fitting(items: &[Octets], room: usize) -> usize
    ensures fits { result ≡ fits room items.now }
    ensures within { result ≤ length items.now }
    ensures room { length (joined (take result items.now)) ≤ room }
{
    let mut left = room;
    let mut count = 0;
    for item in items {
        let len = item.bytes().len();
        if left <= len {
            return count;
        }
        left -= len + 1;
        count += 1;
    }
    count
}

/// An item and its NUL stand from an index on.
fn put_item(buffer: &mut [u8], at: usize, item: &[u8])
    requires { at + length item.now < length buffer.old }
    ensures { buffer.new ≡ take at buffer.old ++ (ended item.now ++ drop (at + (length item.now + 1)) buffer.old) }
{
    let end = at + item.len();
    buffer[at..end].copy_from_slice(item);
    buffer[end] = 0;
}

/// The items stand at the front of the buffer, each with its NUL: so many bytes.
fn fill(buffer: &mut [u8], items: &[Octets]) -> usize
    requires { length (joined items.now) ≤ length buffer.old }
    ensures filled { buffer.new ≡ joined items.now ++ drop (length (joined items.now)) buffer.old }
    ensures len { result ≡ length (joined items.now) }
{
    let mut at = 0;
    for item in items {
        let bytes = item.bytes();
        put_item(buffer, at, bytes);
        at += bytes.len() + 1;
    }
    at
}

/// The same in a part of the memory.
fn put_joined(memory: &mut Memory, place: u32, room: u32, items: &[Octets]) -> usize
    requires range { IsTrue (has_range memory.old place room) }
    requires room { length (joined items.now) ≤ room }
    ensures put { memory.new ≡ put memory.old place (joined items.now) }
    ensures len { result ≡ length (joined items.now) }
{
    fill(memory.part_mut(place, room), items)
}

/// The number of the next item, or -1 where none is left.
fn next_number(cursor: u32, written: usize, left: &[Octets]) -> u64
    requires { written ≤ length left.now }
    ensures { result ≡ next_number cursor written (length left.now) }
{
    if written == left.len() {
        u64::MAX
    } else {
        u64::from(cursor) + written as u64
    }
}

/// Writes items, the number of the next one, and how many bytes were written.
fn put_items(
    memory: &mut Memory,
    place: u32,
    room: u32,
    ending: u32,
    count: u32,
    next: u64,
    items: &[Octets],
)
    requires range { IsTrue (has_range memory.old place room) }
    requires room { length (joined items.now) ≤ room }
    ensures { memory.new ≡ items_put memory.old place ending count next items.now }
{
    let written = put_joined(memory, place, room, items);
    put_number(memory, ending, 8, next);
    put_number(memory, count, 4, written as u64);
}

/// The items from an index on.
fn left_from(items: &[Octets], cursor: u32) -> &[Octets]
    ensures { result.now ≡ drop cursor items.now }
{
    let from = cursor as usize;
    if items.len() <= from {
        &[]
    } else {
        items.split_at(from).1
    }
}

/// Writes as many whole items as fit of those that are left, or the size that the first one needs.
fn put_left(
    memory: &mut Memory,
    place: u32,
    room: u32,
    cursor: u32,
    ending: u32,
    count: u32,
    left: &[Octets],
) -> Result<(), usize>
    requires { IsTrue (has_range memory.old place room) }
    ensures written { OnOk result (left_put memory.old place room cursor ending count left.now ≡ Ok memory.new) }
    ensures needed { IfErr result (λ needed. left_put memory.old place room cursor ending count left.now ≡ Err (BufLen needed)) }
    ensures told { IfErr result (λ needed. memory.new ≡ kept count memory.old (BufLen needed)) }
    ensures size { IfErr result (λ needed. needed ≡ length (slice_index_or left.now 0 []) + 1) }
{
    if let Some(item) = left.first() {
        let len = item.bytes().len();
        if room as usize <= len {
            put_number(memory, count, 4, len as u64 + 1);
            return Err(len + 1);
        }
    }
    let written = fitting(left, room as usize);
    let next = next_number(cursor, written, left);
    put_items(
        memory,
        place,
        room,
        ending,
        count,
        next,
        left.split_at(written).0,
    );
    Ok(())
}

/// Writes a list from the item `cursor` on: as many whole items as fit, each with a NUL behind it. At `ending` stands the
/// number of the next item then, or -1 where none is left, and at `count` how many bytes were written. Where items are left
/// and the first one doesn't fit, its size alone is written, at `count`: `Status::Buflen`.
pub fn put_list(
    memory: &mut Memory,
    place: u32,
    room: u32,
    cursor: u32,
    ending: u32,
    count: u32,
    items: &OctetsList,
) -> Status
    requires { IsTrue (has_range memory.old place room) }
    ensures { listed memory.old place room cursor ending count items.now ≡ record { status = result; memory = memory.new } }
{
    let left = left_from(items.items(), cursor);
    match put_left(memory, place, room, cursor, ending, count, left) {
        Ok(()) => Status::Ok,
        Err(_) => Status::Buflen,
    }
}

/// The same where the places aren't tested yet. The first item that is left is shorter than 2^32 bytes.
pub fn write_list(
    memory: &mut Memory,
    place: u32,
    room: u32,
    cursor: u32,
    ending: u32,
    count: u32,
    items: &OctetsList,
) -> Result<(), AbiFault>
    requires { length (slice_index_or (drop cursor items.now) 0 []) + 1 < 2 ^ 32 }
    ensures { Writes count memory.old (list_written memory.old place room cursor ending count items.now) result memory.new }
{
    octets_room(memory, place, room)?;
    number_room(memory, ending, 8)?;
    number_room(memory, count, 4)?;
    let left = left_from(items.items(), cursor);
    match put_left(memory, place, room, cursor, ending, count, left) {
        Ok(()) => Ok(()),
        Err(needed) => Err(AbiFault::BufLen(needed as u32)),
    }
}
