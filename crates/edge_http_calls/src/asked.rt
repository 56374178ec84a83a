//! What several rows ask of handles and places before their own tests.
ghost use Rattle.std.specs.Prelude.{◌≡◌, ◌≢◌, Ok, Err, IfOk, IfErr};
ghost use Rattle.edge_abi.specs.Refusals as refusals;
ghost use Rattle.edge_http_calls.specs.Requests as spec;

use edge_abi::{Refusal, Status, Table, placed, ranged, unless};
use wasm_memory::Memory;

/// What a handle names.
pub fn handled<T: Drop>(table: &Table<T>, h: u32) -> Result<&T, Refusal>
    ensures ok { IfOk result (λ x. refusals.handled table.now h ≡ Ok x.now) }
    ensures err { IfErr result (λ refusal. refusals.handled table.now h ≡ Err refusal) }
{
    match table.get(h) {
        Some(x) => Ok(x),
        None => Err(Refusal::Told(Status::Badf)),
    }
}

/// A place for a new handle, and a handle to give.
pub fn newly<T: Drop>(table: &Table<T>, memory: &Memory, o: u32) -> Result<(), Refusal>
    ensures { result ≡ spec.newly table.now memory.now o }
{
    placed(memory, o, 4)?;
    unless(!table.is_full(), Status::Limitexceeded)
}

/// What a handle names, and a place for a number.
pub fn with_place<'a, T: Drop>(
    table: &'a Table<T>,
    memory: &Memory,
    h: u32,
    o: u32,
    size: u32,
) -> Result<&'a T, Refusal>
    requires { size ≢ 0 }
    ensures ok { IfOk result (λ x. spec.with_place table.now memory.now h o size ≡ Ok x.now) }
    ensures err { IfErr result (λ refusal. spec.with_place table.now memory.now h o size ≡ Err refusal) }
{
    let named = handled(table, h)?;
    placed(memory, o, size)?;
    Ok(named)
}

/// What a handle names, and a buffer.
pub fn with_buffer<'a, T: Drop>(
    table: &'a Table<T>,
    memory: &Memory,
    h: u32,
    b: u32,
    room: u32,
    count: u32,
) -> Result<&'a T, Refusal>
    ensures ok { IfOk result (λ x. spec.with_buffer table.now memory.now h b room count ≡ Ok x.now) }
    ensures err { IfErr result (λ refusal. spec.with_buffer table.now memory.now h b room count ≡ Err refusal) }
{
    let named = handled(table, h)?;
    ranged(memory, b, room)?;
    placed(memory, count, 4)?;
    Ok(named)
}
