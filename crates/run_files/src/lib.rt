//! Run files: the lines of scripted guests, and the steps of their schedule.
//!
//! A run file is spelled by a function of its value (`run_text`). `read_run` answers a value exactly where the bytes are
//! its spelling, and otherwise the first line that can't stand where it stands.
#![tactic(auto)]

mod limits;
mod machine;
mod read_line;
mod reader;
mod run;

pub use line_reader::RunFault;
pub use reader::read_run;
pub use run::Run;
pub use script_lines::{Blocks, Lines, Step, Steps};
