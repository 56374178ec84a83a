//! Batch files: the requests of a module's guests that run on workers, how many workers there are, and how long each guest
//! may take.
//!
//! A batch file is spelled by a function of what it says (`batch_text`), which has each request by its text. `read_batch`
//! answers a value exactly where the bytes are such a spelling and each text is one request, whole and with nothing behind
//! it; and otherwise the first line that can't stand where it stands. Lines that a play file has too are read as there.
#![tactic(auto)]

mod batch;
mod machine;
mod read_line;
mod reader;

pub use batch::BatchFile;
pub use line_reader::RunFault;
pub use play_files::Requests;
pub use reader::read_batch;
