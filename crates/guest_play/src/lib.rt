//! Guests of a module that take turns by a schedule, over one cache: one guest for each request, and their journal.
//!
//! The schedule is that of `schedule_play`, which knows guests by their programs; here the programs are those that the module
//! is for each request (`specs/Guests.antt`). What a journal of them says is in `specs/Journal.antt`.
#![tactic(auto)]

mod guests;
mod journal;
mod play;

pub use journal::guests_journal;
pub use play::play_guests;
