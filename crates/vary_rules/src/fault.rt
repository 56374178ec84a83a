//! Why a text names no rule.

ghost use Rattle.std.specs.Prelude.{◌≡◌};
ghost use Rattle.vary_rules.specs.declared.fault.RuleFault.TheVariants.{OutOfMemory};
ghost use Rattle.vary_rules.specs.Text.{fault_text};

use std::alloc::{AllocError, AllocFailed};

/// Why a text names no rule.
#[derive(Clone, Copy, Debug, PartialEq, Eq)]
pub enum RuleFault {
    /// A word is no token of at most 64 bytes.
    BadName,
    /// There are more than 32 different names.
    TooMany,
    OutOfMemory,
}

impl RuleFault {
    /// What is told of the fault, without a line feed.
    pub fn text(self) -> &'static str
        ensures { result.now ≡ fault_text self }
    {
        match self {
            RuleFault::BadName => "rule: bad-name",
            RuleFault::TooMany => "rule: too-many-names",
            RuleFault::OutOfMemory => "rule: out-of-memory",
        }
    }
}

impl From<AllocError> for RuleFault {
    ghost from_gives = { λ _ fault. fault ≡ OutOfMemory };

    fn from(_: AllocError) -> Self {
        RuleFault::OutOfMemory
    }
}

impl<T: Drop> From<AllocFailed<T>> for RuleFault {
    ghost from_gives = { λ _ fault. fault ≡ OutOfMemory };

    fn from(_: AllocFailed<T>) -> Self {
        RuleFault::OutOfMemory
    }
}
