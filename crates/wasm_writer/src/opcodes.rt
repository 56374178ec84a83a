//! From instructions to their opcodes (section 5.4).

ghost use Rattle.std.specs.Prelude.{◌≡◌};
ghost use Rattle.wasm_code.specs.Opcodes.{compare_number, unary_number, binary_number, load_number, store_number, convert_number, opcode_of};

use wasm_types::{Binary, Compare, Convert, Instr, LoadKind, StoreKind, Unary, Value};

fn compare(op: Compare) -> u8
    ensures { result ≡ compare_number op }
{
    match op {
        Compare::Eq => 0,
        Compare::Ne => 1,
        Compare::LtS => 2,
        Compare::LtU => 3,
        Compare::GtS => 4,
        Compare::GtU => 5,
        Compare::LeS => 6,
        Compare::LeU => 7,
        Compare::GeS => 8,
        Compare::GeU => 9,
    }
}

fn unary(op: Unary) -> u8
    ensures { result ≡ unary_number op }
{
    match op {
        Unary::Clz => 0,
        Unary::Ctz => 1,
        Unary::Popcnt => 2,
    }
}

fn binary(op: Binary) -> u8
    ensures { result ≡ binary_number op }
{
    match op {
        Binary::Add => 0,
        Binary::Sub => 1,
        Binary::Mul => 2,
        Binary::DivS => 3,
        Binary::DivU => 4,
        Binary::RemS => 5,
        Binary::RemU => 6,
        Binary::And => 7,
        Binary::Or => 8,
        Binary::Xor => 9,
        Binary::Shl => 10,
        Binary::ShrS => 11,
        Binary::ShrU => 12,
        Binary::Rotl => 13,
        Binary::Rotr => 14,
    }
}

fn load(kind: LoadKind) -> u8
    ensures { result ≡ load_number kind }
{
    match kind {
        LoadKind::I32 => 0x28,
        LoadKind::I64 => 0x29,
        LoadKind::I32From8S => 0x2C,
        LoadKind::I32From8U => 0x2D,
        LoadKind::I32From16S => 0x2E,
        LoadKind::I32From16U => 0x2F,
        LoadKind::I64From8S => 0x30,
        LoadKind::I64From8U => 0x31,
        LoadKind::I64From16S => 0x32,
        LoadKind::I64From16U => 0x33,
        LoadKind::I64From32S => 0x34,
        LoadKind::I64From32U => 0x35,
    }
}

fn store(kind: StoreKind) -> u8
    ensures { result ≡ store_number kind }
{
    match kind {
        StoreKind::I32 => 0x36,
        StoreKind::I64 => 0x37,
        StoreKind::I32To8 => 0x3A,
        StoreKind::I32To16 => 0x3B,
        StoreKind::I64To8 => 0x3C,
        StoreKind::I64To16 => 0x3D,
        StoreKind::I64To32 => 0x3E,
    }
}

fn convert(op: Convert) -> u8
    ensures { result ≡ convert_number op }
{
    match op {
        Convert::WrapI64 => 0xA7,
        Convert::ExtendI32S => 0xAC,
        Convert::ExtendI32U => 0xAD,
    }
}

/// The opcode of an instruction.
pub(crate) fn opcode(instr: &Instr) -> u8
    ensures { result ≡ opcode_of instr.now }
{
    match instr {
        Instr::Unreachable => 0x00,
        Instr::Nop => 0x01,
        Instr::Block(_) => 0x02,
        Instr::Loop(_) => 0x03,
        Instr::If(_) => 0x04,
        Instr::Else => 0x05,
        Instr::End => 0x0B,
        Instr::Br(_) => 0x0C,
        Instr::BrIf(_) => 0x0D,
        Instr::BrTable { .. } => 0x0E,
        Instr::Return => 0x0F,
        Instr::Call(_) => 0x10,
        Instr::CallIndirect(_) => 0x11,
        Instr::Drop => 0x1A,
        Instr::Select => 0x1B,
        Instr::LocalGet(_) => 0x20,
        Instr::LocalSet(_) => 0x21,
        Instr::LocalTee(_) => 0x22,
        Instr::GlobalGet(_) => 0x23,
        Instr::GlobalSet(_) => 0x24,
        Instr::Load { kind, .. } => load(*kind),
        Instr::Store { kind, .. } => store(*kind),
        Instr::MemorySize => 0x3F,
        Instr::MemoryGrow => 0x40,
        Instr::Const(Value::I32(_)) => 0x41,
        Instr::Const(Value::I64(_)) => 0x42,
        Instr::I32Test(_) => 0x45,
        Instr::I32Compare(op) => 0x46 + compare(*op),
        Instr::I64Test(_) => 0x50,
        Instr::I64Compare(op) => 0x51 + compare(*op),
        Instr::I32Unary(op) => 0x67 + unary(*op),
        Instr::I32Binary(op) => 0x6A + binary(*op),
        Instr::I64Unary(op) => 0x79 + unary(*op),
        Instr::I64Binary(op) => 0x7C + binary(*op),
        Instr::Convert(op) => convert(*op),
    }
}
