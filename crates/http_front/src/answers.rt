//! The ways in which a body is written.
/// How the pieces of a body are written.
#[derive(Clone, Copy, Debug, PartialEq, Eq)]
pub enum Framing {
    /// As they are.
    Plain,
    /// Each as a chunk.
    Chunked,
    /// Not at all.
    Empty,
}
