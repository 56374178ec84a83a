//! Why no response was read.
ghost use Rattle.std.specs.Prelude.{◌≡◌};
ghost use Rattle.edge_link.specs.declared.fault.ResponseFault.TheVariants.{OutOfMemory};

use std::alloc::AllocError;
use thiserror::Error;

/// Why no response was read. Of the first two the first that holds is told.
#[derive(Clone, Copy, Debug, PartialEq, Eq, Error)]
pub enum ResponseFault {
    /// There are more than 67,108,864 bytes.
    #[error("the response is too large")]
    TooLarge,
    /// The bytes hold no response to the method.
    #[error("no response")]
    BadResponse,
    /// No memory was found.
    #[error("out of memory")]
    OutOfMemory,
}

impl From<AllocError> for ResponseFault {
    ghost from_gives = { λ _ fault. fault ≡ OutOfMemory };

    fn from(_: AllocError) -> Self {
        ResponseFault::OutOfMemory
    }
}
