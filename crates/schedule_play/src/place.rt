//! What a schedule keeps of a player.

/// What a schedule keeps of a player.
#[derive(Clone, Copy, Debug, PartialEq, Eq)]
pub struct Place {
    /// The number of its Begin entry, 0 before it.
    pub guest: u64,
    /// Its End was answered, or it was stopped.
    pub over: bool,
}
