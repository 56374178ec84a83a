//! The front: HTTP/1.x requests read of any source, and the answers to them.
//!
//! Of a request it is said exactly which one was read, or why there is none, by the reads that were made; nothing is read
//! once the message is whole. What is written is the stated text.
#![tactic(auto)]

mod answers;
mod fault;
mod frames;
mod heads;
mod judge;
mod reading;
mod requests;
mod writing;

pub use answers::Framing;
pub use fault::FrontFault;
pub use frames::{end_frame, framing, piece_frame};
pub use heads::{Head, Incoming};
pub use requests::read_request;
pub use writing::{answer_head, error_answer, fault_answer};
