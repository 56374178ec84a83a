//! One guest on a worker: its calls on the cache go to the hub by the worker's pass, its calls on the clock to the worker's
//! own, and what it sends to its client.
//!
//! `work_one` runs any player, over any cache, clock, gate and sink. What it did is `WorkedOne` in `specs/Work.antt`: the
//! calls are a run of the guest's program, whole or cut for a stated cause; those on the cache are exactly its entries in
//! the history, each at a reading of this clock; and the client got its answer, the frames up to the write that failed, or
//! a failure that wasn't written whole. Nobody answers calls on a link here: a start is told that it failed, so no guest
//! has a ticket.
#![tactic(auto)]

mod client;
mod laws;
mod outside;
mod work;

pub use laws::{
    lost_pieces_are_held_in_part, tied_calls_stay_tied, timed_entries_stay_timed,
    written_pieces_are_held,
};
pub use work::{Hand, work_one};
