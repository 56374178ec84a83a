//! What is written of an object, in the pieces that it came in, shared with whoever has them.
//!
//! A body tells how long it is and hands out any part of itself. A part that lies in one piece is
//! shared with it; only one that runs over several pieces is put together in memory of its own.
#![tactic(auto)]

mod body;
mod part;
mod piece;

pub use body::Body;
