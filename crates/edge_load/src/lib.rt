//! The load: a number gives scripted guests and their schedule, made of random words, and one line tells how they went.
//!
//! The run is a function of the number (`specs/Load.antt`), and the line one of the run's history (`specs/Told.antt`). It is
//! played over any cache; where a guest was stopped for want of memory, there is no line.
#![tactic(auto)]

#[tactic(auto, using(crate::proofs::Upto::rows))]
mod lines;
#[tactic(auto, using(crate::proofs::Upto::rows))]
mod load;
mod played;
mod told;
mod words;

pub use load::{load_part, load_run};
pub use played::{history_of, load_line};
