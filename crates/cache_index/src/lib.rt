//! From a key to its rules, and from a slot to its newest object.
//!
//! `Index` is told each insertion once, in order. What it answers is what filters over the
//! insertions that it was told would give, found by ordered maps.
#![tactic(auto)]

mod index;
mod rules;

pub use index::Index;
