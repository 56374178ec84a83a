//! Why bytes could not be read.

ghost use Rattle.std.specs.Prelude.{◌≡◌};
ghost use Rattle.wasm_code.specs.Reading.{told_of};

/// What is wrong at a place. `OutOfMemory` says nothing of the bytes.
#[derive(Clone, Copy, Debug, PartialEq, Eq)]
pub enum ReadKind {
    /// The bytes end too early.
    Truncated,
    BadMagic,
    BadVersion,
    /// A section's number is unknown, or not above that of the section before it.
    SectionOrder,
    /// The content of a section or body passes its stated end, or ends before it.
    SectionSize,
    /// A number has too many bytes, or bits that must repeat the sign or be zero don't.
    BadLeb,
    /// A name isn't UTF-8.
    BadName,
    /// A byte isn't one of those that may stand there.
    BadForm,
    /// A count or size exceeds a limit.
    TooLarge,
    BadOpcode,
    /// An instruction or a type of floating point, which the profile leaves out.
    FloatUsed,
    NestedTooDeep,
    /// There are more or fewer function bodies than functions.
    CountMismatch,
    OutOfMemory,
}

/// The first fault, and the byte where it stands: its index in the module, or 4294967295 where that is greater.
#[derive(Clone, Copy, Debug, PartialEq, Eq)]
pub struct ReadFault {
    pub kind: ReadKind,
    pub place: u32,
}

/// Why reading stopped.
pub type Stop = basics::Stop<ReadFault>;

/// The fault that is told of a stop. Want of memory stands at place 0.
pub fn told_of(stop: Stop) -> ReadFault
    ensures { result ≡ told_of stop }
{
    match stop {
        Stop::Memory => ReadFault {
            kind: ReadKind::OutOfMemory,
            place: 0,
        },
        Stop::Fault(fault) => fault,
    }
}
