//! What a hostcall answers, and why a row stops before its meaning.
ghost use Rattle.std.specs.Prelude.{◌≡◌};
ghost use Rattle.edge_abi.specs.Statuses.{number_of};

use std::alloc::AllocError;

/// What a hostcall answers, by the names of compute-at-edge. `Httpuser`, `Httpheadtoolarge` and `Again` are never answered
/// here.
#[derive(Clone, Copy, Debug, PartialEq, Eq)]
pub enum Status {
    Ok,
    Error,
    Inval,
    Badf,
    Buflen,
    Unsupported,
    Badalign,
    Httpinvalid,
    Httpuser,
    Httpincomplete,
    None,
    Httpheadtoolarge,
    Httpinvalidstatus,
    Limitexceeded,
    Again,
}

impl Status {
    /// Its number in compute-at-edge.
    pub fn number(self) -> u32
        ensures { result ≡ number_of self }
    {
        match self {
            Status::Ok => 0,
            Status::Error => 1,
            Status::Inval => 2,
            Status::Badf => 3,
            Status::Buflen => 4,
            Status::Unsupported => 5,
            Status::Badalign => 6,
            Status::Httpinvalid => 7,
            Status::Httpuser => 8,
            Status::Httpincomplete => 9,
            Status::None => 10,
            Status::Httpheadtoolarge => 11,
            Status::Httpinvalidstatus => 12,
            Status::Limitexceeded => 13,
            Status::Again => 14,
        }
    }
}

/// Why a row stops before its meaning: the status that it answers, or want of memory.
#[derive(Clone, Copy, Debug, PartialEq, Eq)]
pub enum Refusal {
    Told(Status),
    OutOfMemory,
}

impl From<AllocError> for Refusal {
    ghost use Rattle.edge_abi.specs.declared.status.Refusal.TheVariants.{OutOfMemory};

    ghost from_gives = { λ _ refusal. refusal ≡ OutOfMemory };

    fn from(_error: AllocError) -> Refusal {
        Refusal::OutOfMemory
    }
}
