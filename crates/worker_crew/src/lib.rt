//! Workers side by side, each with a seat of its own.
//!
//! What a worker does is a `Duty`: it says of a seat what it needs and what it leaves. `run` does it at each seat at the same
//! time, and promises of each seat that the duty was done there, once. No word here speaks of a cache.
#![tactic(auto)]

mod crew;

pub use crew::{Duty, run};
