//! The limits of a play file.

/// The requests of a play, one for each guest.
pub const MOST_GUESTS: usize = 1000;

/// The steps of its schedule.
pub const MOST_STEPS: usize = 1_000_000;

/// The bytes of a play file.
pub const MOST_BYTES: usize = 67_108_864;
