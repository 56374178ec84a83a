//! Why a module isn't valid.

ghost use Rattle.std.specs.Prelude.{◌≡◌};
ghost use Rattle.wasm_validate.specs.Faults.{fault_in, halt_in, told_of};

/// What is wrong. `OutOfMemory` says nothing of the module.
#[derive(Clone, Copy, Debug, PartialEq, Eq)]
pub enum ValidKind {
    UnknownType,
    UnknownFunction,
    UnknownTable,
    UnknownMemory,
    UnknownGlobal,
    UnknownLocal,
    UnknownLabel,
    /// Operands are missing, are left over, or aren't of the type that is wanted.
    TypeMismatch,
    /// An immutable global is set.
    ImmutableGlobal,
    /// An alignment is greater than the width in memory.
    BadAlign,
    /// An instruction may not stand in a constant expression.
    BadConst,
    /// The least size is greater than the most, or one of them is out of range.
    BadLimits,
    /// The start function takes or gives something.
    BadStart,
    /// Two exports have one name.
    DuplicateExport,
    /// There are two tables or two memories.
    MoreThanOne,
    /// There are more than 1,024 operands.
    TooHigh,
    OutOfMemory,
}

/// Why a check stopped.
pub type Stop = basics::Stop<ValidKind>;

/// Where a fault stands: a section, or for `Code` the body of a function.
#[derive(Clone, Copy, Debug, PartialEq, Eq)]
pub enum Part {
    Import,
    Func,
    Table,
    Memory,
    Global,
    Export,
    Start,
    Element,
    Code,
    Data,
}

/// The first fault: its kind, its part, the index of the item in that section or of the function with imports
/// counted, and in a function the number of the instruction, else 0. A number above 4294967295 is told as that.
#[derive(Clone, Copy, Debug, PartialEq, Eq)]
pub struct ValidFault {
    pub kind: ValidKind,
    pub part: Part,
    pub index: u32,
    pub at: u32,
}

/// Why the check of a module stopped.
pub type Halt = basics::Stop<ValidFault>;

/// A fault at a place.
pub fn fault_in(part: Part, index: usize, kind: ValidKind, at: usize) -> ValidFault
    ensures { result ≡ fault_in part index (kind, at) }
{
    ValidFault {
        kind,
        part,
        index: index.min(4_294_967_295) as u32,
        at: at.min(4_294_967_295) as u32,
    }
}

/// The same of a stop.
pub fn halt_in(part: Part, index: usize, stop: Stop, at: usize) -> Halt
    ensures { result ≡ halt_in part index stop at }
{
    match stop {
        Stop::Memory => Halt::Memory,
        Stop::Fault(kind) => Halt::Fault(fault_in(part, index, kind, at)),
    }
}

/// The fault that is told of a halt. Want of memory has the first part, and place 0.
pub fn told_of(halt: Halt) -> ValidFault
    ensures { result ≡ told_of halt }
{
    match halt {
        Halt::Memory => ValidFault {
            kind: ValidKind::OutOfMemory,
            part: Part::Import,
            index: 0,
            at: 0,
        },
        Halt::Fault(fault) => fault,
    }
}
