//! Where an instruction of a function stands, in a module that could be read: its numbers are in order.

use crate::places::{body_of, leb_at};

/// The place behind so many numbers in LEB128.
fn skip_numbers(bytes: &[u8], place: usize, count: u64) -> Option<usize> {
    let mut at = place;
    for _ in 0..count {
        let (_, next) = leb_at(bytes, at)?;
        at = next;
    }
    Some(at)
}

/// The place behind the instruction at a place, in version 1.0 without floats.
fn behind(bytes: &[u8], place: usize) -> Option<usize> {
    let opcode = *bytes.get(place)?;
    let at = place.saturating_add(1);
    match opcode {
        // A block has the byte of its type, memory.size and memory.grow a zero.
        0x02..=0x04 | 0x3f | 0x40 => Some(at.saturating_add(1)),
        // Branches, calls, locals, globals and constants.
        0x0c | 0x0d | 0x10 | 0x20..=0x24 | 0x41 | 0x42 => skip_numbers(bytes, at, 1),
        // A call by a table has a type and a zero, loads and stores an alignment and an offset.
        0x11 | 0x28..=0x3e => skip_numbers(bytes, at, 2),
        0x0e => {
            let (labels, first) = leb_at(bytes, at)?;
            skip_numbers(bytes, first, labels.saturating_add(1))
        }
        _ => Some(at),
    }
}

/// The place of a body's first instruction, behind its locals.
fn first_instruction(bytes: &[u8], body: usize) -> Option<usize> {
    let (groups, mut at) = leb_at(bytes, body)?;
    for _ in 0..groups {
        let (_, kind) = leb_at(bytes, at)?;
        at = kind.saturating_add(1);
    }
    Some(at)
}

/// The byte of the instruction with this number, from 0 without `else` and `end`, in the function with this number,
/// imported ones counted; or of the function's last `end`.
pub fn instruction_at(bytes: &[u8], function: u64, number: u64) -> Option<usize> {
    let (body, end) = body_of(bytes, function)?;
    let mut at = first_instruction(bytes, body)?;
    let mut passed = 0u64;
    for _ in body..end {
        let opcode = *bytes.get(at)?;
        let is_counted = opcode != 0x05 && opcode != 0x0b;
        if (is_counted && passed == number) || at.saturating_add(1) >= end {
            return Some(at);
        }
        if is_counted {
            passed = passed.saturating_add(1);
        }
        at = behind(bytes, at)?;
    }
    None
}
