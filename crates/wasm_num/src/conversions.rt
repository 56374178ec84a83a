//! Conversions between the two sizes.

ghost use Rattle.std.specs.Prelude.{◌≡◌, ◌<◌, ◌^◌};
ghost use Rattle.std.specs.Int.{w32, w64};
ghost use Rattle.wasm_num.specs.Numbers.{convert, extend_s, operand_width, size};

use wasm_types::Convert;

/// Operand and result are kept in 64 bits, also where they have 32.
pub fn convert(op: Convert, a: u64) -> u64
    requires { a < 2 ^ size (operand_width op) }
    ensures { result ≡ convert op a }
{
    match op {
        Convert::WrapI64 => a % 0x1_0000_0000,
        Convert::ExtendI32S => extend_s(a as u32),
        Convert::ExtendI32U => a,
    }
}

fn extend_s(a: u32) -> u64
    ensures { result ≡ extend_s w32 w64 a }
{
    i64::from(a.cast_signed()).cast_unsigned()
}
