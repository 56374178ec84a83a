//! Options as they stand in the memory of a guest, each by the bit of its mask.
ghost use Rattle.std.specs.Prelude.{◌≡◌, ◌+◌, ◌≤◌, IsTrue, length, OnOk};
ghost use Rattle.cache_calls.specs.Options as spec;

use edge_abi::{Refusal, Status, unless};
use wasm_memory::Memory;

/// The mask has this bit.
pub fn has(mask: u32, bit: u32) -> bool
    ensures { result ≡ spec.has mask bit }
{
    mask & bit != 0
}

/// The number in four bytes.
pub fn word_at(memory: &Memory, place: u64) -> u32
    requires { place + 4 ≤ length memory.now.bytes }
    ensures { result ≡ spec.word_at memory.now place }
{
    match memory.load(place, 4) {
        Ok(number) => number as u32,
        Err(_) => unreachable!(),
    }
}

/// The number in eight bytes.
pub fn long_at(memory: &Memory, place: u64) -> u64
    requires { place + 8 ≤ length memory.now.bytes }
    ensures { result ≡ spec.long_at memory.now place }
{
    match memory.load(place, 8) {
        Ok(number) => number,
        Err(_) => unreachable!(),
    }
}

/// A number of eight bytes, or 0 where it isn't given.
pub fn number_given(memory: &Memory, mask: u32, bit: u32, place: u64) -> u64
    requires { place + 8 ≤ length memory.now.bytes }
    ensures { result ≡ spec.number_given memory.now mask bit place }
{
    if has(mask, bit) {
        long_at(memory, place)
    } else {
        0
    }
}

/// A length in eight bytes, where it is given.
pub fn length_given(memory: &Memory, mask: u32, bit: u32, place: u64) -> Option<u64>
    requires { place + 8 ≤ length memory.now.bytes }
    ensures { result ≡ spec.length_given memory.now mask bit place }
{
    if has(mask, bit) {
        Some(long_at(memory, place))
    } else {
        None
    }
}

/// A text that a record gives lies within the memory.
fn is_text_inside(memory: &Memory, mask: u32, bit: u32, start: u32, at: u32) -> bool
    requires { start + at + 8 ≤ length memory.now.bytes }
    ensures { result ≡ spec.is_text_inside memory.now mask bit (start + at) }
{
    let place = u64::from(start) + u64::from(at);
    !has(mask, bit)
        || memory.is_inside(
            u64::from(word_at(memory, place)),
            u64::from(word_at(memory, place + 4)),
        )
}

/// A text that a record gives: inval out of bounds. Its place stands in four bytes of the record, and its length in the next
/// four.
pub fn text_ranged(memory: &Memory, mask: u32, bit: u32, start: u32, at: u32) -> Result<(), Refusal>
    requires { start + at + 8 ≤ length memory.now.bytes }
    ensures refusal { result ≡ spec.text_ranged memory.now mask bit (start + at) }
    ensures inside { OnOk result (IsTrue (spec.is_text_inside memory.now mask bit (start + at))) }
{
    unless(is_text_inside(memory, mask, bit, start, at), Status::Inval)
}

/// A text that a record gives; it is empty where it isn't given.
pub fn text_given(memory: &Memory, mask: u32, bit: u32, start: u32, at: u32) -> &[u8]
    requires room { start + at + 8 ≤ length memory.now.bytes }
    requires inside { IsTrue (spec.is_text_inside memory.now mask bit (start + at)) }
    ensures { result.now ≡ spec.text_given memory.now mask bit (start + at) }
{
    if !has(mask, bit) {
        return &[];
    }
    let place = u64::from(start) + u64::from(at);
    match memory.part(word_at(memory, place), word_at(memory, place + 4)) {
        Some(text) => text,
        None => unreachable!(),
    }
}
