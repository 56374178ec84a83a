//! Reading and writing the memory of a guest, with the fault where it can't be done.
ghost use Rattle.std.specs.Prelude.{◌≡◌, ◌<◌, ◌^◌, IsTrue, length};
ghost use Rattle.wasm_memory.specs.Bytes.{is_access};
ghost use Rattle.edge_abi.specs.Faults.{octets_room, number_room, octets_read, number_written, octets_written, Reads, Writes};

use crate::memory::put_number;
use crate::status::Status;
use crate::values::put_value;
use cache_types::Octets;
use std::alloc::{AllocError, Global};
use wasm_memory::Memory;

/// Why the memory of a guest wasn't read or written.
#[derive(Clone, Copy, Debug, PartialEq, Eq)]
pub enum AbiFault {
    /// Out of bounds.
    Inval,
    /// A place that its number's size doesn't divide.
    BadAlign,
    /// The value has so many bytes, which was written where its length is told.
    BufLen(u32),
    OutOfMemory,
}

impl From<AllocError> for AbiFault {
    ghost use Rattle.edge_abi.specs.declared.octets.AbiFault.TheVariants.{OutOfMemory};

    ghost from_gives = { λ _ fault. fault ≡ OutOfMemory };

    fn from(_error: AllocError) -> AbiFault {
        AbiFault::OutOfMemory
    }
}

/// A range of bytes lies within the memory.
pub fn octets_room(memory: &Memory, place: u32, len: u32) -> Result<(), AbiFault>
    ensures { result ≡ octets_room memory.now place len }
{
    if memory.is_inside(u64::from(place), u64::from(len)) {
        Ok(())
    } else {
        Err(AbiFault::Inval)
    }
}

/// The place of a number lies within the memory, and its size divides it.
pub fn number_room(memory: &Memory, place: u32, size: u32) -> Result<(), AbiFault>
    requires { IsTrue (is_access size) }
    ensures { result ≡ number_room memory.now place size }
{
    octets_room(memory, place, size)?;
    if place % size == 0 {
        Ok(())
    } else {
        Err(AbiFault::BadAlign)
    }
}

/// The bytes of a range.
pub fn read_octets(alloc: Global, memory: &Memory, place: u32, len: u32) -> Result<Octets, AbiFault>
    ensures { Reads (octets_read memory.now place len) result }
{
    match memory.part(place, len) {
        Some(bytes) => Ok(Octets::of(alloc, bytes)?),
        None => Err(AbiFault::Inval),
    }
}

/// Writes a number of 1, 2, 4 or 8 bytes, the lowest first.
pub fn write_number(memory: &mut Memory, place: u32, size: u32, value: u64) -> Result<(), AbiFault>
    requires { IsTrue (is_access size) }
    ensures { Writes place memory.old (number_written memory.old place size value) result memory.new }
{
    number_room(memory, place, size)?;
    put_number(memory, place, size, value);
    Ok(())
}

/// Writes bytes and, at `count`, their length; where there is no room for them, the length alone.
pub fn write_octets(
    memory: &mut Memory,
    place: u32,
    room: u32,
    count: u32,
    bytes: &[u8],
) -> Result<(), AbiFault>
    requires { length bytes.now < 2 ^ 32 }
    ensures { Writes count memory.old (octets_written memory.old place room count bytes.now) result memory.new }
{
    octets_room(memory, place, room)?;
    number_room(memory, count, 4)?;
    match put_value(memory, place, room, count, bytes) {
        Status::Ok => Ok(()),
        _ => Err(AbiFault::BufLen(bytes.len() as u32)),
    }
}
