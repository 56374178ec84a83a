//! The indexed cache: the plain one's answers, found by ordered maps beside the list of entries.
//!
//! The parts are told each entry before it is appended. They may hold more than the entries say,
//! since telling may stop for want of memory; what they hold of an object that was made is exact.
//! No reply walks the entries.
#![tactic(auto)]

mod awaiting;
mod beginning;
mod bodies;
mod cache;
mod changing;
mod ending;
mod entries;
#[tactic(auto, using(crate::proofs::Searching::here_alive, crate::proofs::Searching::none_here))]
mod finding;
mod hits;
mod holding;
mod looking;
mod making;
mod parts;
mod purging;
mod replies;
mod slots;
#[tactic(auto, using(crate::proofs::Walks::walks))]
mod steps;
mod telling;
mod terms;
mod transactions;
mod tx_lookups;
mod waits;

pub use cache::CoreCache;
