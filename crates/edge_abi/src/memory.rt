//! Writes to the memory of a guest, which write nothing where there is no room.
ghost use Rattle.std.specs.Prelude.{◌≡◌, IsTrue, length};
ghost use Rattle.wasm_memory.specs.Bytes.{is_access};
ghost use Rattle.edge_abi.specs.Memory.{put, number_put};

use wasm_memory::Memory;

/// Writes bytes where there is room for them.
#[tactic(auto, unfolding(crate::specs::Memory::put))]
pub fn put(memory: &mut Memory, place: u32, bytes: &[u8])
    ensures { memory.new ≡ put memory.old place bytes.now }
{
    let _written = memory.put(place, bytes);
}

/// Writes the lowest `size` bytes of a number where there is room, the lowest first.
#[tactic(auto, using(crate::proofs::Numbers::length_bytes), unfolding(crate::specs::Memory::number_put, crate::specs::Memory::put))]
pub fn put_number(memory: &mut Memory, place: u32, size: u32, value: u64)
    requires { IsTrue (is_access size) }
    ensures { memory.new ≡ number_put memory.old place size value }
{
    let _written = memory.store(u64::from(place), size, value);
}
