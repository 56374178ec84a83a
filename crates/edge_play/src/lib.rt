//! Scripted guests that take turns by a schedule, over one cache.
//!
//! The schedule is that of `schedule_play`, which knows guests by their programs; here the programs are those of scripts, and
//! what it promises is told in the words of scripts.
#![tactic(auto)]

mod guests;
mod play;

pub use play::play_scripts;
