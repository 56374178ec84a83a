//! The top calls: what each command reads, does and writes, and how it exits.
//!
//! `host` carries the promise of the product: where it exits with Ok, the bytes that it wrote are
//! the text of one legal history, and of a block for each guest, tied to it and to its program.
//! The definition to begin with is `specs/Does.antt`; what a command works out from the bytes that
//! it read is in `specs/Script.antt`, `specs/Play.antt` and `specs/Check.antt`, and from a number in
//! `specs/Load.antt`.
#![tactic(auto)]

mod check;
mod command;
mod commands;
mod exit;
mod laws;
mod load;
mod play;
mod script;

pub use commands::host;
pub use exit::Exit;
pub use laws::{one_file_is_several, one_write_is_one_part, text_is_added};
pub use script::{journal_of, journal_over};
