//! Numbers as the machine has them (section 4.2.1), and why it stops.

use items::Items;

/// A number as its bits, not as a signed one (section 2.2.2).
#[derive(Clone, Copy, Debug, PartialEq, Eq)]
pub enum Value {
    I32(u32),
    I64(u64),
}

/// A list of numbers, as the arguments of a call.
pub type Values = Items<Value>;

/// Why a program stopped by itself (section 4.4).
#[derive(Clone, Copy, Debug, PartialEq, Eq)]
pub enum TrapKind {
    Unreachable,
    DivideByZero,
    Overflow,
    OutOfBounds,
    TableBounds,
    NullElement,
    IndirectType,
    StackFull,
    Segment,
}
