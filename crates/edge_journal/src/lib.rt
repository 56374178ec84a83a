//! The texts of a run, all in one place: the run file, which is read, and the journal, which is written and read back.
//!
//! The parts stand in crates of their own, so that each caller waits for what it needs alone: `run_files`,
//! `journal_writer` and `journal_reader`, over `line_reader`. What only both sides of a journal together can promise
//! stands here: what is written is read back, and what is read is written again as it stood.
#![tactic(auto)]

mod relying;

pub use journal_reader::{Guests, Journal, read_journal, spells_one_journal};
pub use journal_writer::journal_text;
pub use line_reader::RunFault;
pub use relying::{read_and_written, written_and_read};
pub use run_files::{Run, read_run};
pub use script_lines::{Blocks, Line, Lines, Named, Step, Steps};

#[cfg(test)]
mod tests;
