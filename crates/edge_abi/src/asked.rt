//! What a row has come to.

use cache_types::OuterCall;

/// What a hostcall has come to.
#[derive(Debug, Drop)]
pub enum Asked {
    /// The number that it answers.
    Done(u32),
    /// Its next outer call.
    Outer(OuterCall),
    /// The guest ends with this code.
    Exit(u32),
}

/// One step of a row: what it answers, or its next outer call and how it goes on behind the reply.
#[derive(Drop)]
pub enum Step<U> {
    /// The number that the hostcall answers.
    Done(u32),
    Outer(OuterCall, U),
}
