//! A body: pieces in a row, and the length of them all.

ghost use Rattle.std.specs.Prelude.{◌≡◌, ◌+◌, ◌<◌, ◌^◌, ◌++◌, [], length, OnOk, OnErr, IfOk, take, drop};

use crate::part::{first_at, put_together, shared};
use crate::piece::Piece;
use cache_types::Octets;
use std::alloc::{AllocError, Global};
use std::marker::Model;

/// What is written of an object, which contracts see as a list of bytes.
#[derive(Drop)]
pub struct Body {
    pieces: Vec<Piece>,
    len: u64,
}

impl Model for Body {
    ghost use Rattle.std.specs.Prelude.{◌≡◌, List, ℕ, length};
    ghost use Rattle.cache_bodies.specs.Joined.{joined, Runs};

    ghost Value = { List ℕ };

    ghost view = { λ body. joined body.pieces.items };

    ghost invariant = { λ body. (body.len ≡ length (joined body.pieces.items)) × Runs 0 body.pieces.items };
}

impl Body {
    /// No bytes.
    pub fn new(alloc: Global) -> Body
        ensures { result ≡ [] }
    {
        Body {
            pieces: Vec::new(alloc),
            len: 0,
        }
    }

    /// How many bytes.
    pub fn len(&self) -> u64
        ensures { result ≡ length self.now }
    {
        self.len
    }

    /// Adds a piece, shared with whoever has it.
    pub fn push(&mut self, octets: Octets) -> Result<(), AllocError>
        requires { length self.old + length octets < 2 ^ 64 }
        ensures written { OnOk result (self.new ≡ self.old ++ octets) }
        ensures unchanged { OnErr result (self.new ≡ self.old) }
    {
        let len = octets.bytes().len() as u64;
        self.pieces.push(Piece {
            place: self.len,
            octets,
        })?;
        self.len += len;
        Ok(())
    }

    /// At most so many bytes from a place on: shared where they lie in one piece, else put together.
    pub fn part(&self, alloc: Global, place: u64, most: u32) -> Result<Octets, AllocError>
        ensures { IfOk result (λ part. part ≡ take most (drop place self.now)) }
    {
        let pieces = self.pieces.as_slice();
        let most = u64::from(most).min(self.len.saturating_sub(place)) as usize;
        let first = first_at(pieces, place);
        match shared(pieces, first, place, most)? {
            Some(part) => Ok(part),
            None => Octets::from_vec(put_together(alloc, pieces, first, place, most)?),
        }
    }
}
