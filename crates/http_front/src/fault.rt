//! Why no request was read.
ghost use Rattle.std.specs.Prelude.{◌≡◌};
ghost use Rattle.http_front.specs.declared.fault.FrontFault.TheVariants.{OutOfMemory};

use std::alloc::AllocError;

/// Why no request was read.
#[derive(Clone, Copy, Debug, PartialEq, Eq)]
pub enum FrontFault {
    /// Nothing makes the bytes a request, or its head breaks a rule.
    Bad,
    /// No head within 65,536 bytes, or more than 100 headers.
    HeadTooLarge,
    /// The body has more than 67,108,864 bytes.
    TooLarge,
    /// A request that this host doesn't serve.
    Unsupported,
    /// The input ended first.
    Cut,
    /// The source failed.
    ReadFault,
    OutOfMemory,
}

impl From<AllocError> for FrontFault {
    ghost from_gives = { λ _ fault. fault ≡ OutOfMemory };

    fn from(_: AllocError) -> Self {
        FrontFault::OutOfMemory
    }
}
