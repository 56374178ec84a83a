//! From opcodes to what they stand for (section 5.4).

ghost use Rattle.std.specs.Prelude.{◌≡◌};
ghost use Rattle.wasm_code.specs.Decoding.{compare_at, unary_at, binary_at, load_at, store_at, convert_at, numeric_at, opcode_fault};

use crate::fault::ReadKind;
use wasm_types::{Binary, Compare, Convert, Instr, LoadKind, StoreKind, Test, Unary};

fn compare(code: u8) -> Option<Compare>
    ensures { result ≡ compare_at code }
{
    match code {
        0 => Some(Compare::Eq),
        1 => Some(Compare::Ne),
        2 => Some(Compare::LtS),
        3 => Some(Compare::LtU),
        4 => Some(Compare::GtS),
        5 => Some(Compare::GtU),
        6 => Some(Compare::LeS),
        7 => Some(Compare::LeU),
        8 => Some(Compare::GeS),
        9 => Some(Compare::GeU),
        _ => None,
    }
}

fn unary(code: u8) -> Option<Unary>
    ensures { result ≡ unary_at code }
{
    match code {
        0 => Some(Unary::Clz),
        1 => Some(Unary::Ctz),
        2 => Some(Unary::Popcnt),
        _ => None,
    }
}

fn binary(code: u8) -> Option<Binary>
    ensures { result ≡ binary_at code }
{
    match code {
        0 => Some(Binary::Add),
        1 => Some(Binary::Sub),
        2 => Some(Binary::Mul),
        3 => Some(Binary::DivS),
        4 => Some(Binary::DivU),
        5 => Some(Binary::RemS),
        6 => Some(Binary::RemU),
        7 => Some(Binary::And),
        8 => Some(Binary::Or),
        9 => Some(Binary::Xor),
        10 => Some(Binary::Shl),
        11 => Some(Binary::ShrS),
        12 => Some(Binary::ShrU),
        13 => Some(Binary::Rotl),
        14 => Some(Binary::Rotr),
        _ => None,
    }
}

pub(crate) fn load(code: u8) -> Option<LoadKind>
    ensures { result ≡ load_at code }
{
    match code {
        0x28 => Some(LoadKind::I32),
        0x29 => Some(LoadKind::I64),
        0x2C => Some(LoadKind::I32From8S),
        0x2D => Some(LoadKind::I32From8U),
        0x2E => Some(LoadKind::I32From16S),
        0x2F => Some(LoadKind::I32From16U),
        0x30 => Some(LoadKind::I64From8S),
        0x31 => Some(LoadKind::I64From8U),
        0x32 => Some(LoadKind::I64From16S),
        0x33 => Some(LoadKind::I64From16U),
        0x34 => Some(LoadKind::I64From32S),
        0x35 => Some(LoadKind::I64From32U),
        _ => None,
    }
}

pub(crate) fn store(code: u8) -> Option<StoreKind>
    ensures { result ≡ store_at code }
{
    match code {
        0x36 => Some(StoreKind::I32),
        0x37 => Some(StoreKind::I64),
        0x3A => Some(StoreKind::I32To8),
        0x3B => Some(StoreKind::I32To16),
        0x3C => Some(StoreKind::I64To8),
        0x3D => Some(StoreKind::I64To16),
        0x3E => Some(StoreKind::I64To32),
        _ => None,
    }
}

fn convert(code: u8) -> Option<Convert>
    ensures { result ≡ convert_at code }
{
    match code {
        0xA7 => Some(Convert::WrapI64),
        0xAC => Some(Convert::ExtendI32S),
        0xAD => Some(Convert::ExtendI32U),
        _ => None,
    }
}

/// The instruction on numbers that has this opcode. It has no operands.
#[tactic(auto, unfolding(crate::specs::Decoding::numeric_at))]
pub(crate) fn numeric(code: u8) -> Option<Instr>
    ensures { result ≡ numeric_at code }
{
    match code {
        0x00..0x45 => None,
        0x45..0x46 => Some(Instr::I32Test(Test::Eqz)),
        0x46..0x50 => Some(Instr::I32Compare(compare(code - 0x46)?)),
        0x50..0x51 => Some(Instr::I64Test(Test::Eqz)),
        0x51..0x5B => Some(Instr::I64Compare(compare(code - 0x51)?)),
        0x5B..0x67 => None,
        0x67..0x6A => Some(Instr::I32Unary(unary(code - 0x67)?)),
        0x6A..0x79 => Some(Instr::I32Binary(binary(code - 0x6A)?)),
        0x79..0x7C => Some(Instr::I64Unary(unary(code - 0x79)?)),
        0x7C..0x8B => Some(Instr::I64Binary(binary(code - 0x7C)?)),
        _ => Some(Instr::Convert(convert(code)?)),
    }
}

/// What is wrong with an opcode that the profile doesn't have.
pub(crate) fn opcode_fault(code: u8) -> ReadKind
    ensures { result ≡ opcode_fault code }
{
    if (0x2A <= code && code <= 0x2B)
        || (0x38 <= code && code <= 0x39)
        || (0x43 <= code && code <= 0x44)
        || (0x5B <= code && code <= 0x66)
        || (0x8B <= code && code <= 0xA6)
        || (0xA8 <= code && code <= 0xAB)
        || (0xAE <= code && code <= 0xBF)
    {
        ReadKind::FloatUsed
    } else {
        ReadKind::BadOpcode
    }
}
