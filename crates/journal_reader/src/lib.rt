//! Reads journals back: the history of a cache, and a block for each guest.
//!
//! `read_journal` answers a value exactly where the bytes are the one spelling of it (`journal_bytes` of the writer), of
//! which they have one at most ([`spells_one_journal`]), and otherwise the first line that can't stand where it stands. Each file reads one thing: `read_numbers`, `read_reply`,
//! `read_entry`, `read_event`, `read_outcome`; `machine` puts their lines together.
#![tactic(auto)]

mod journal;
mod laws;
mod machine;
mod read_entry;
mod read_event;
mod read_numbers;
mod read_outcome;
mod read_reply;
mod reader;

pub use journal::{Guests, Journal};
pub use laws::spells_one_journal;
pub use line_reader::RunFault;
pub use reader::read_journal;
