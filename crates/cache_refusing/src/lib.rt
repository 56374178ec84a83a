//! A cache that finds no memory at one chosen step, over any other: what guests do then can be tried with it.
#![tactic(auto)]

mod refusing;

pub use refusing::RefusingCache;
