//! Vectors of bytes and names (sections 5.1.3 and 5.2.4).

ghost use Rattle.std.specs.Prelude.{◌≡◌};
ghost use Rattle.std.specs.Str.{is_utf8};
ghost use Rattle.wasm_code.specs.Reading.{Gives};
ghost use Rattle.wasm_reader.specs.Reading.{bytes_at, name_at};

use std::alloc::Global;
use std::str;
use wasm_code::{ReadKind, Scope, Stop, fault_at, read_u32, short_of};
use wasm_types::Items;

// So many bytes as a count says, where they stand.
#[tactic(auto, unfolding(crate::specs::Reading::bytes_at))]
fn bytes_of(scope: Scope, bytes: &[u8]) -> Result<(&[u8], &[u8]), Stop>
    ensures { Gives (λ x. (x.0.now, x.1.now)) result (bytes_at scope bytes.now) }
{
    let (len, rest) = read_u32(scope, bytes)?;
    let len = len as usize;
    if len <= rest.len() {
        let (inside, after) = rest.split_at(len);
        return Ok((inside, after));
    }
    Err(Stop::Fault(short_of(scope)))
}

pub(crate) fn read_bytes(
    alloc: Global,
    scope: Scope,
    bytes: &[u8],
) -> Result<(Items<u8>, &[u8]), Stop>
    ensures { Gives (λ x. (x.0, x.1.now)) result (bytes_at scope bytes.now) }
{
    let (inside, rest) = bytes_of(scope, bytes)?;
    Ok((Items::of(Vec::from_slice(alloc, inside)?), rest))
}

fn is_text(bytes: &[u8]) -> bool
    ensures { result ≡ is_utf8 bytes.now }
{
    str::from_utf8(bytes).is_ok()
}

/// A name where it stands.
#[tactic(auto, unfolding(crate::specs::Reading::name_at))]
pub(crate) fn name_of(scope: Scope, bytes: &[u8]) -> Result<(&[u8], &[u8]), Stop>
    ensures { Gives (λ x. (x.0.now, x.1.now)) result (name_at scope bytes.now) }
{
    let (len, rest) = read_u32(scope, bytes)?;
    let len = len as usize;
    if len <= rest.len() {
        let (name, after) = rest.split_at(len);
        if is_text(name) {
            return Ok((name, after));
        }
        return Err(Stop::Fault(fault_at(ReadKind::BadName, scope, rest)));
    }
    Err(Stop::Fault(short_of(scope)))
}

pub(crate) fn read_name(
    alloc: Global,
    scope: Scope,
    bytes: &[u8],
) -> Result<(Items<u8>, &[u8]), Stop>
    ensures { Gives (λ x. (x.0, x.1.now)) result (name_at scope bytes.now) }
{
    let (name, rest) = name_of(scope, bytes)?;
    Ok((Items::of(Vec::from_slice(alloc, name)?), rest))
}
