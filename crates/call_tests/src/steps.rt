//! What a guest does, step by step, and what must come of it.

use crate::guest::{Guest, ask_told, fresh_guest, settings};
use crate::said::Said;
use edge_imports::Hostcall;
use std::alloc::{AllocError, Global};
use wasm_memory::Memory;

/// A step. Handles, lengths and places are numbers of 32 bits.
#[derive(Clone, Copy)]
pub enum Do {
    /// Bytes are put at this place; a number of four or of eight bytes is.
    Put(u32, &'static [u8]),
    Put4(u64, u64),
    Put8(u64, u64),
    /// The call with these arguments answers this number, and makes no outer call.
    Call(Hostcall, &'static [u32], u32),
    /// The call makes outer calls that are answered this, which say these bytes; then it answers this number.
    Goes(Hostcall, &'static [u32], &'static [Said], u32, &'static [u8]),
    /// These bytes, so many zeros, this number of four or of eight bytes stand at this place.
    Has(u32, &'static [u8]),
    Zeros(u32, u32),
    Has4(u64, u64),
    Has8(u64, u64),
}

/// Whether the bytes stand there.
fn has(memory: &Memory, place: u32, bytes: &[u8]) -> bool {
    let length = u32::try_from(bytes.len()).unwrap_or(u32::MAX);
    memory.part(place, length) == Some(bytes)
}

fn has_zeros(memory: &Memory, place: u32, length: u32) -> bool {
    memory
        .part(place, length)
        .is_some_and(|part| part.iter().all(|byte| *byte == 0))
}

/// Whether a call comes to this number, and its outer calls say these bytes.
fn comes_to(
    alloc: Global,
    guest: &mut Guest,
    call: Hostcall,
    words: &[u32],
    replies: &[Said],
    number: u32,
    bytes: &[u8],
) -> Result<bool, AllocError> {
    let mut told = Vec::new(alloc);
    let came = ask_told(alloc, guest, call, words, replies, &mut told)?;
    Ok(came == number && told.as_slice() == bytes)
}

/// Does a step, and gives whether it came out as told.
fn is_so(alloc: Global, guest: &mut Guest, step: Do) -> Result<bool, AllocError> {
    match step {
        Do::Put(place, bytes) => Ok(guest.memory.put(place, bytes).is_ok()),
        Do::Put4(place, number) => Ok(guest.memory.store(place, 4, number).is_ok()),
        Do::Put8(place, number) => Ok(guest.memory.store(place, 8, number).is_ok()),
        Do::Call(call, words, number) => comes_to(alloc, guest, call, words, &[], number, &[]),
        Do::Goes(call, words, replies, number, bytes) => {
            comes_to(alloc, guest, call, words, replies, number, bytes)
        }
        Do::Has(place, bytes) => Ok(has(&guest.memory, place, bytes)),
        Do::Zeros(place, length) => Ok(has_zeros(&guest.memory, place, length)),
        Do::Has4(place, number) => Ok(guest.memory.load(place, 4) == Ok(number)),
        Do::Has8(place, number) => Ok(guest.memory.load(place, 8) == Ok(number)),
    }
}

/// The place of the first step that doesn't come out as told.
fn first_off(alloc: Global, guest: &mut Guest, steps: &[Do]) -> Result<Option<usize>, AllocError> {
    for (place, step) in steps.iter().enumerate() {
        if !is_so(alloc, guest, *step)? {
            return Ok(Some(place));
        }
    }
    Ok(None)
}

/// The first step of some lists, one behind another, that doesn't come out as told: which list it is in, and its place there.
pub fn first_off_of(
    alloc: Global,
    guest: &mut Guest,
    lists: &[&[Do]],
) -> Result<Option<(usize, usize)>, AllocError> {
    for (number, steps) in lists.iter().enumerate() {
        if let Some(place) = first_off(alloc, guest, steps)? {
            return Ok(Some((number, place)));
        }
    }
    Ok(None)
}

/// The same of a guest that did nothing yet.
pub fn first_off_anew(
    alloc: Global,
    lists: &[&[Do]],
) -> Result<Option<(usize, usize)>, AllocError> {
    let settings = settings(alloc)?;
    let mut guest = fresh_guest(alloc, &settings)?;
    first_off_of(alloc, &mut guest, lists)
}
