//! Rows that wait for the reply to their outer call.

use edge_abi::Step;

/// A row that waits, and where it tells what comes.
#[derive(Clone, Copy, Debug, PartialEq, Eq)]
pub enum UnderWay {
    /// A line of an endpoint is logged, of so many bytes.
    Logging { taken: u32, place: u32 },
    /// A line of `stdout` or `stderr`.
    Writing { taken: u32, place: u32 },
    /// A clock is read.
    Timing { place: u32 },
}

/// What a row has come to.
pub type StoreStep = Step<UnderWay>;
