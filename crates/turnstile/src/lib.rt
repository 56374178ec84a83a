//! Counted turns on one shared value: any number of callers on any threads, one at a time.
//!
//! A kept value stands for a list of entries, and each turn adds one entry at most. Each caller has a `Pass`, which
//! carries in its contract's value what it has seen of the one list, and the entries that were made through it.
//!
//! What holds between any two steps is `Stands` in `specs/Rule.antt`: one list, whose added entries each have one maker.
//! To the layer above: the list that a pass has seen is a beginning of that list, its own entries are those of one maker,
//! a family's entries are all with its opener, and the pass with all parts gets the value back, with every entry its own.
//! Put into `sound` what holds of the value between two turns.
#![tactic(auto)]

mod passing;
mod standing;
mod steps;
mod turnstile;
mod view;

pub use standing::{Kept, Standing};
pub use turnstile::{Busy, Pass, Turnstile};
