//! Texts of HTTP/1.x that requests and responses share: bytes read ahead of a source, headers by their names, bodies of a
//! stated length and in chunks.
//!
//! What is whole, wrong or still open is said of the bytes, so how a source cut them into pieces changes nothing. What is
//! said of a source is said of the reads that were made. Heads and chunk lines are read by `httparse`, whose grammar the
//! definitions cite.
#![tactic(auto)]

mod ahead;
mod bodies;
mod chunks;
mod fault;
mod fields;

pub use ahead::{Ahead, PIECE, has_line_feed};
pub use bodies::{chunked_body, sized_body};
pub use chunks::{AfterChunks, MOST_BODY, NextChunk, next_chunk, take_chunks};
pub use fault::{BodyFault, NoBytes};
pub use fields::{
    any_high_byte, count_of, fields_at, first_of, is_digits, length_told, same_in_lower_case,
};

#[cfg(test)]
mod tests;
