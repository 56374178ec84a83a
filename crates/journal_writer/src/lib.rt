//! Writes journals: the history of a cache, and a block for each guest.
//!
//! A journal is the one spelling (`journal_bytes`) of a history and of its guests' blocks; `journal_text` gives it. Each
//! file writes one thing: `write_reply`, `write_entry`, `write_event`, `write_outcome`, `write_journal`.
#![tactic(auto)]

mod write_entry;
mod write_event;
mod write_journal;
mod write_outcome;
mod write_reply;

pub use write_journal::journal_text;
