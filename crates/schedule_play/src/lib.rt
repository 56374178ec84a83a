//! Players that take turns by a schedule, over one cache and one link.
//!
//! The one call is `play`. What it leads to is a fold over the steps, which knows guests by their programs alone; so every
//! kind of guest has the same promises from one proof.
#![tactic(auto)]

mod links;
mod place;
mod schedule;
mod turns;

pub use schedule::play;
