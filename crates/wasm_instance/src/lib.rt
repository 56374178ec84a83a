//! What code finds when a module starts whose imports are all functions (section 4.5.4 of the WebAssembly Core Specification
//! 1.0): the first values of its globals, its table and its memory.
//!
//! The bounds of all segments are tested before anything is written, and a segment past the end is the only refusal. A module
//! that isn't valid may have none of these; it is answered as if there were no memory.
#![tactic(auto)]

mod constants;
mod memories;
mod starting;
mod tables;

pub use starting::{Begun, NewFault, start};
