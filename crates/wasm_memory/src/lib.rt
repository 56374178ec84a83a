//! The memory of a guest: bytes in pages of 65,536, which grow up to a bound (sections 4.2.8 and 4.4.4 of the WebAssembly
//! Core Specification 1.0).
//!
//! A [`Memory`] is seen as the list of its bytes and the most pages that it may have. Loads, stores and parts take no memory
//! of the host; a refusal changes nothing.
#![tactic(auto)]

mod access;
mod laws;
mod memory;

pub use laws::{
    a_part_is_written, number_in_bytes, only_the_part_changes, what_is_written_is_there,
};
pub use memory::{Memory, OutOfBounds};

#[cfg(test)]
mod tests;
