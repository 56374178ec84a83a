//! The limits of a run file.

/// The guests of a run.
pub const MOST_GUESTS: usize = 1000;

/// The steps of a schedule.
pub const MOST_STEPS: usize = 1_000_000;

/// The bytes of a run file.
pub const MOST_BYTES: usize = 67_108_864;
