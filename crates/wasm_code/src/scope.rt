//! How far reading may go, and the places of faults.

ghost use Rattle.std.specs.Prelude.{◌≡◌};
ghost use Rattle.wasm_code.specs.Reading.{fault_at, short_of};

use crate::fault::{ReadFault, ReadKind};

/// Where reading may go: up to a section's or body's end, or to that of all bytes.
///
/// What is left to read is a slice that ends there, so its length tells its place.
#[derive(Clone, Copy, Debug, PartialEq, Eq)]
pub struct Scope {
    /// The index in the module of the byte after the last one.
    pub end: usize,
    /// What it is to pass the end.
    pub short: ReadKind,
}

/// A fault where these bytes, the last of the scope, begin.
pub fn fault_at(kind: ReadKind, scope: Scope, bytes: &[u8]) -> ReadFault
    ensures { result ≡ fault_at kind scope bytes.now }
{
    let place = scope.end.saturating_sub(bytes.len()).min(4_294_967_295);
    ReadFault {
        kind,
        place: place as u32,
    }
}

/// The fault of passing the end.
pub fn short_of(scope: Scope) -> ReadFault
    ensures { result ≡ short_of scope }
{
    ReadFault {
        kind: scope.short,
        place: scope.end.min(4_294_967_295) as u32,
    }
}
