//! Play files: the requests of a module's guests, and the steps of their schedule.
//!
//! A play file is spelled by a function of what it says (`play_text`), which has each request by its text. `read_play`
//! answers a value exactly where the bytes are such a spelling and each text is one request, whole and with nothing behind
//! it; and otherwise the first line that can't stand where it stands. What other files of requests need of it is shown
//! too: the lines that they share, and the request that a text is.
#![tactic(auto)]

mod limits;
mod machine;
mod play;
mod read_line;
mod reader;
mod text_source;
mod whole;

pub use limits::{MOST_BYTES, MOST_GUESTS};
pub use line_reader::RunFault;
pub use play::{PlayFile, Requests};
pub use read_line::{fuel_line, random_line, request_line, word_behind};
pub use reader::read_play;
pub use script_lines::{Step, Steps};
pub use whole::whole_request;
