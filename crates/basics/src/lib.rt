//! Why work stopped: memory ran out, or there is a fault. So 'exact, unless memory ran out' is said one way in every
//! crate: a function answers `Result<_, Stop<F>>`, its definition a `Result` over the faults alone, and `Gives` of
//! `specs/Stops.antt` says that the one is the other.
//!
//! Beside it stand the lemmas on what a chain of such steps has given (`proofs/Results.antt`).
#![tactic(auto)]

mod stop;

pub use stop::Stop;
