//! Why a call through the hub was not made, or given up.

/// Why a call was not made.
#[derive(Clone, Copy, Debug, PartialEq, Eq)]
pub enum CallFault {
    /// Another pass had the turn.
    Busy,
    /// Entries and live guests take up all the room.
    Full,
    OutOfMemory,
}

/// Why a call was given up.
#[derive(Clone, Copy, Debug, PartialEq, Eq)]
pub enum UntilFault {
    /// The clock reached the deadline, by this reading in nanoseconds.
    Timeout { reading: u64 },
    /// Entries and live guests take up all the room.
    Full,
    OutOfMemory,
}
