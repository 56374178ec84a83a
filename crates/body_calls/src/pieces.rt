//! The calls that write a piece, and that read a hit.
ghost use Rattle.std.specs.Prelude.{◌≡◌, ◌≤◌, false, length};
ghost use Rattle.edge_abi.specs.Goes.{MayMake};
ghost use Rattle.edge_http_calls.specs.Moves.{piece_to, read_at};
ghost use Rattle.body_calls.specs.Links.{asks_link};

use cache_types::{CacheCall, Octets, OuterCall};
use edge_http_calls::To;

/// The call that writes a piece.
pub fn piece_to(to: To, piece: Octets) -> OuterCall
    requires { length piece ≤ 65536 }
    ensures call { result ≡ piece_to to piece }
    ensures may { MayMake result }
    ensures unlinked { asks_link result ≡ false }
{
    match to {
        To::Filling { object } => OuterCall::Cache(CacheCall::Write { object, piece }),
        To::Down => OuterCall::Piece { bytes: piece },
    }
}

/// The call that reads a hit from a place: a Read asks for 1 to 65,536 bytes.
#[tactic(auto, using(crate::proofs::Short::read_within))]
pub fn read_at(hit: u64, place: u64, most: u32) -> OuterCall
    ensures call { result ≡ read_at hit place most }
    ensures may { MayMake result }
    ensures unlinked { asks_link result ≡ false }
{
    OuterCall::Cache(CacheCall::Read {
        hit,
        place,
        most: most.min(65536).max(1),
    })
}
