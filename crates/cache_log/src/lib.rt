//! What every cache does with its list of entries, whichever way it finds its answers: the room for
//! each, the End that room is kept for, the next entry, and what is read off one entry.
#![tactic(auto)]

mod asked;
#[tactic(auto, using(crate::proofs::Walks::walks))]
mod log;
#[tactic(auto, using(crate::proofs::Walks::walks))]
mod look;

pub use asked::Asked;
pub use log::{append, entry_with, is_full, make_room};
pub use look::{
    asked_at, asked_in, entry_at, hit_of, is_begin, is_done, is_end, is_lookup, is_made,
    is_not_yet, is_short, is_told_to_insert, last_moment, object_of, own_entry,
};
