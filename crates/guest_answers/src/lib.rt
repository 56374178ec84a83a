//! The HTTP answer that a guest's calls make: its head, the pieces of its body in their frames, and the end.
//!
//! The answer is a function of the guest's block in a journal and of the request's method (`specs/Blocks.antt`): whoever
//! has the request and the journal has the bytes that the client got, or was to get. `answer_of` gives them.
#![tactic(auto)]

mod answer;
mod block;
mod laws;

pub use answer::{Answer, after_call};
pub use block::answer_of;
pub use laws::{answers_are_what_was_sent, answers_begin_with_their_head};
