//! What a run file says: the lines of scripted guests, and the steps of their schedule.
//!
//! These are plain values, apart from their texts. A line is a call with 0 in the place of the entry that it names, and
//! beside it what stands for that entry; `with_name` puts the entry's number there.
#![tactic(auto)]

mod line;
mod names;
mod step;

pub use line::{Blocks, Line, Lines, Named};
pub use names::with_name;
pub use step::{Step, Steps};
