//! What loads and stores read and write.

ghost use Rattle.std.specs.Prelude.{◌≡◌, ◌*◌, ◌^◌, ◌<◌, IsTrue};
ghost use Rattle.std.specs.Int.{w8, w16, w32, w64};
ghost use Rattle.wasm_memory.specs.Bytes.{is_access};
ghost use Rattle.wasm_num.specs.Numbers.{extend_s};
ghost use Rattle.wasm_meaning.specs.Acts.{load_size, loaded, store_size, stored};
ghost use Rattle.wasm_flat.specs.Made.{Gives};

use crate::halt::Halt;
use wasm_types::{LoadKind, StoreKind, Value};

pub fn load_size(kind: LoadKind) -> u32
    ensures size { result ≡ load_size kind }
    ensures access { IsTrue (is_access result) }
{
    match kind {
        LoadKind::I32 => 4,
        LoadKind::I64 => 8,
        LoadKind::I32From8S => 1,
        LoadKind::I32From8U => 1,
        LoadKind::I32From16S => 2,
        LoadKind::I32From16U => 2,
        LoadKind::I64From8S => 1,
        LoadKind::I64From8U => 1,
        LoadKind::I64From16S => 2,
        LoadKind::I64From16U => 2,
        LoadKind::I64From32S => 4,
        LoadKind::I64From32U => 4,
    }
}

fn extend8(n: u8) -> u32
    ensures { result ≡ extend_s w8 w32 n }
{
    i32::from(n.cast_signed()).cast_unsigned()
}

fn extend16(n: u16) -> u32
    ensures { result ≡ extend_s w16 w32 n }
{
    i32::from(n.cast_signed()).cast_unsigned()
}

fn extend8_wide(n: u8) -> u64
    ensures { result ≡ extend_s w8 w64 n }
{
    i64::from(n.cast_signed()).cast_unsigned()
}

fn extend16_wide(n: u16) -> u64
    ensures { result ≡ extend_s w16 w64 n }
{
    i64::from(n.cast_signed()).cast_unsigned()
}

fn extend32_wide(n: u32) -> u64
    ensures { result ≡ extend_s w32 w64 n }
{
    i64::from(n.cast_signed()).cast_unsigned()
}

/// What a load makes of the number that it read.
pub fn loaded(kind: LoadKind, n: u64) -> Value
    requires { n < 2 ^ (8 * load_size kind) }
    ensures { result ≡ loaded kind n }
{
    match kind {
        LoadKind::I32 => Value::I32(n as u32),
        LoadKind::I64 => Value::I64(n),
        LoadKind::I32From8S => Value::I32(extend8(n as u8)),
        LoadKind::I32From8U => Value::I32(n as u32),
        LoadKind::I32From16S => Value::I32(extend16(n as u16)),
        LoadKind::I32From16U => Value::I32(n as u32),
        LoadKind::I64From8S => Value::I64(extend8_wide(n as u8)),
        LoadKind::I64From8U => Value::I64(n),
        LoadKind::I64From16S => Value::I64(extend16_wide(n as u16)),
        LoadKind::I64From16U => Value::I64(n),
        LoadKind::I64From32S => Value::I64(extend32_wide(n as u32)),
        LoadKind::I64From32U => Value::I64(n),
    }
}

pub fn store_size(kind: StoreKind) -> u32
    ensures size { result ≡ store_size kind }
    ensures access { IsTrue (is_access result) }
{
    match kind {
        StoreKind::I32 => 4,
        StoreKind::I64 => 8,
        StoreKind::I32To8 => 1,
        StoreKind::I32To16 => 2,
        StoreKind::I64To8 => 1,
        StoreKind::I64To16 => 2,
        StoreKind::I64To32 => 4,
    }
}

fn number32(value: Value) -> Result<u64, Halt>
    ensures { Gives result (stored StoreKind.I32 value) }
{
    match value {
        Value::I32(n) => Ok(u64::from(n)),
        Value::I64(_) => Err(Halt::Stuck),
    }
}

fn number64(value: Value) -> Result<u64, Halt>
    ensures { Gives result (stored StoreKind.I64 value) }
{
    match value {
        Value::I64(n) => Ok(n),
        Value::I32(_) => Err(Halt::Stuck),
    }
}

/// The number that a store takes.
pub fn stored(kind: StoreKind, value: Value) -> Result<u64, Halt>
    ensures { Gives result (stored kind value) }
{
    match kind {
        StoreKind::I32 | StoreKind::I32To8 | StoreKind::I32To16 => number32(value),
        _ => number64(value),
    }
}
