//! The words of refusal that rows have in common.
ghost use Rattle.std.specs.Prelude.{◌≡◌, ◌≢◌, IsTrue, OnOk};
ghost use Rattle.edge_abi.specs.Memory.{has_range};
ghost use Rattle.edge_abi.specs.Refusals.{unless, ranged, placed};

use crate::status::{Refusal, Status};
use wasm_memory::Memory;

/// Refuses with a status unless the test holds.
pub fn unless(test: bool, status: Status) -> Result<(), Refusal>
    ensures { result ≡ unless test status }
{
    if test {
        Ok(())
    } else {
        Err(Refusal::Told(status))
    }
}

/// A range of bytes: inval out of bounds.
pub fn ranged(memory: &Memory, place: u32, len: u32) -> Result<(), Refusal>
    ensures refusal { result ≡ ranged memory.now place len }
    ensures inside { OnOk result (IsTrue (has_range memory.now place len)) }
{
    unless(
        memory.is_inside(u64::from(place), u64::from(len)),
        Status::Inval,
    )
}

/// The place of a number: inval out of bounds, then badalign.
pub fn placed(memory: &Memory, place: u32, size: u32) -> Result<(), Refusal>
    requires { size ≢ 0 }
    ensures { result ≡ placed memory.now place size }
{
    ranged(memory, place, size)?;
    unless(place % size == 0, Status::Badalign)
}
