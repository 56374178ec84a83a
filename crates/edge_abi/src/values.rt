//! Values that rows write into buffers.
ghost use Rattle.std.specs.Prelude.{◌≡◌};
ghost use Rattle.edge_abi.specs.Buffers.{buffered};

use crate::memory::{put, put_number};
use crate::status::Status;
use wasm_memory::Memory;

/// Writes a value and, at `count`, its length. Where there is no room for it, the length alone: `Status::Buflen`.
pub fn put_value(memory: &mut Memory, place: u32, room: u32, count: u32, bytes: &[u8]) -> Status
    ensures { buffered memory.old place room count bytes.now ≡ record { status = result; memory = memory.new } }
{
    let len = bytes.len() as u64;
    if len <= u64::from(room) {
        put(memory, place, bytes);
        put_number(memory, count, 4, len);
        Status::Ok
    } else {
        let needed = len;
        put_number(memory, count, 4, needed);
        Status::Buflen
    }
}
