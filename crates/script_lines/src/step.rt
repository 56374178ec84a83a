//! The steps of a schedule.

use cache_types::Items;

/// One try of a guest's next call: the reading in nanoseconds, and the guest by its block, counted from 1.
#[derive(Clone, Copy, Debug, PartialEq, Eq)]
pub struct Step {
    pub reading: u64,
    pub player: u32,
}

/// The steps of a schedule.
pub type Steps = Items<Step>;
