//! The words of one cache call: spelled and read, for run files and for journals.
//!
//! A call is spelled by a function of its value (`call_words`), so each call has one spelling. The two files differ only in
//! how the entry that a call names is spelled: `@n` or `#n` in a run file, a plain number in a journal. `read_form` reads
//! the line of either file and gives the words after it; `read_call` the call of a journal. `write_call` writes it.
#![tactic(auto)]

mod forms;
mod limits;
mod naming;
mod options;
mod pieces;
mod words;

pub use forms::{read_call, read_form};
pub use limits::{is_kept, is_limited};
pub use naming::{Naming, named_call};
pub use script_lines::{Line, Named, with_name};
pub use words::write_call;
