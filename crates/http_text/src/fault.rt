//! Why there are no more bytes, or no body.
ghost use Rattle.std.specs.Prelude.{◌≡◌};
ghost use Rattle.http_text.specs.declared.fault.NoBytes.TheVariants.{OutOfMemory};

use std::alloc::AllocError;

/// Why a read gave no byte more.
#[derive(Clone, Copy, Debug, PartialEq, Eq)]
pub enum NoBytes {
    /// The input is at its end.
    Ended,
    /// The source failed.
    Failed,
    OutOfMemory,
}

impl From<AllocError> for NoBytes {
    ghost from_gives = { λ _ fault. fault ≡ OutOfMemory };

    fn from(_: AllocError) -> Self {
        NoBytes::OutOfMemory
    }
}

/// Why a body wasn't read.
#[derive(Clone, Copy, Debug, PartialEq, Eq)]
pub enum BodyFault {
    /// Nothing makes the bytes a body.
    Bad,
    /// The body is longer than it may be.
    TooLarge,
    /// The input ended first.
    Ended,
    /// The source failed.
    Failed,
    OutOfMemory,
}
