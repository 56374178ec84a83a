//! A piece of a body.

use cache_types::Octets;

/// A piece of a body, and how many bytes of the body stand before it.
#[derive(Drop)]
pub struct Piece {
    pub place: u64,
    pub octets: Octets,
}
