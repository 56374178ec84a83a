//! Instructions (section 2.4).

use crate::types::ValueType;
use crate::values::Value;
use items::Items;

/// An instruction (section 2.4), or one of the two words that part and close blocks.
///
/// Indices are those of the module's functions, types, globals and the function's locals; a label counts
/// blocks from the innermost one. `align` is the exponent of a power of two.
#[derive(Debug, Drop, PartialEq, Eq)]
pub enum Instr {
    Unreachable,
    Nop,
    Block(Option<ValueType>),
    Loop(Option<ValueType>),
    If(Option<ValueType>),
    Else,
    End,
    Br(u32),
    BrIf(u32),
    BrTable {
        labels: Items<u32>,
        other: u32,
    },
    Return,
    Call(u32),
    CallIndirect(u32),
    Drop,
    Select,
    LocalGet(u32),
    LocalSet(u32),
    LocalTee(u32),
    GlobalGet(u32),
    GlobalSet(u32),
    Load {
        kind: LoadKind,
        align: u32,
        offset: u32,
    },
    Store {
        kind: StoreKind,
        align: u32,
        offset: u32,
    },
    MemorySize,
    MemoryGrow,
    Const(Value),
    I32Test(Test),
    I32Compare(Compare),
    I32Unary(Unary),
    I32Binary(Binary),
    I64Test(Test),
    I64Compare(Compare),
    I64Unary(Unary),
    I64Binary(Binary),
    Convert(Convert),
}

#[derive(Clone, Copy, Debug, PartialEq, Eq)]
pub enum Test {
    Eqz,
}

#[derive(Clone, Copy, Debug, PartialEq, Eq)]
pub enum Compare {
    Eq,
    Ne,
    LtS,
    LtU,
    GtS,
    GtU,
    LeS,
    LeU,
    GeS,
    GeU,
}

#[derive(Clone, Copy, Debug, PartialEq, Eq)]
pub enum Unary {
    Clz,
    Ctz,
    Popcnt,
}

#[derive(Clone, Copy, Debug, PartialEq, Eq)]
pub enum Binary {
    Add,
    Sub,
    Mul,
    DivS,
    DivU,
    RemS,
    RemU,
    And,
    Or,
    Xor,
    Shl,
    ShrS,
    ShrU,
    Rotl,
    Rotr,
}

#[derive(Clone, Copy, Debug, PartialEq, Eq)]
pub enum Convert {
    WrapI64,
    ExtendI32S,
    ExtendI32U,
}

/// What a load reads: a whole number, or fewer bits that it extends, signed or unsigned.
#[derive(Clone, Copy, Debug, PartialEq, Eq)]
pub enum LoadKind {
    I32,
    I64,
    I32From8S,
    I32From8U,
    I32From16S,
    I32From16U,
    I64From8S,
    I64From8U,
    I64From16S,
    I64From16U,
    I64From32S,
    I64From32U,
}

/// What a store writes: a whole number, or its lowest bits.
#[derive(Clone, Copy, Debug, PartialEq, Eq)]
pub enum StoreKind {
    I32,
    I64,
    I32To8,
    I32To16,
    I64To8,
    I64To16,
    I64To32,
}
