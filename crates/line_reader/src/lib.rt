//! Reads a text line by line: what each further line may be is a machine's, and the loop, the numbers of lines and the
//! faults are the same for every file.
//!
//! `read_lines` tells what the machine tells. Of a machine that takes exactly the good texts, `proofs/ByLines.antt` says
//! that the line told is the first that can't stand where it stands.
#![tactic(auto)]

mod fault;
mod machine;
mod reader;

pub use fault::RunFault;
pub use machine::LineMachine;
pub use reader::read_lines;
