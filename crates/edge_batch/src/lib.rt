//! The requests of a batch on workers: each worker has a share of them, works off one after another through its own pass of
//! the hub, and keeps a block of each.
//!
//! `specs/Blocks.antt` says what some workers did (`Worked`), by what they have together: the history as far as they saw it,
//! the entries made through their passes, the readings of their clocks. One worker's share is worked off so, two workers
//! whose passes are rejoined did so together, and once the history is whole it is `IsBatch`: one legal history, a block for
//! each request, whose calls are a run of the request's program and on the cache exactly the entries of its guest.
//!
//! What a guest is made of is the maker's to say.
#![tactic(auto)]

mod join;
mod maker;
mod request;
mod share;

pub use join::finish_batch;
pub use maker::GuestMaker;
pub use share::{Batch, Seat};
