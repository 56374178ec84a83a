//! Parts of pieces that stand in a row.

ghost use Rattle.std.specs.Prelude.{◌≡◌, ◌+◌, ◌≤◌, [], length, take, drop, IfOk, IfSome};
ghost use Rattle.cache_bodies.specs.Joined.{joined, Runs};

use crate::piece::Piece;
use cache_types::Octets;
use std::alloc::{AllocError, Global};

/// From which piece on the bytes at the place stand: all pieces before it end there or earlier.
pub fn first_at(pieces: &[Piece], place: u64) -> usize
    requires { Runs 0 pieces.now }
    ensures within { result ≤ length pieces.now }
    ensures before { drop place (joined (take result pieces.now)) ≡ [] }
{
    let behind = pieces.partition_point(|piece| piece.place <= place);
    if behind == 0 {
        return 0;
    }
    // That the search finds the last such piece is its speed; what is used of it is tested.
    if pieces[behind - 1].place <= place {
        behind - 1
    } else {
        0
    }
}

/// So many bytes from the place on, shared with this one of the pieces, where they lie in it.
pub fn shared(
    pieces: &[Piece],
    first: usize,
    place: u64,
    most: usize,
) -> Result<Option<Octets>, AllocError>
    requires { Runs 0 pieces.now }
    ensures { IfOk result (λ part. IfSome part (λ octets. octets ≡ take most (drop place (joined pieces.now)))) }
{
    if first >= pieces.len() {
        return Ok(None);
    }
    let piece = &pieces[first];
    let len = piece.octets.bytes().len();
    if place < piece.place || place - piece.place > len as u64 {
        return Ok(None);
    }
    let skip = (place - piece.place) as usize;
    if most > len - skip {
        return Ok(None);
    }
    Ok(Some(piece.octets.piece(skip, skip + most)?))
}

/// The bytes behind the first so many.
fn behind(bytes: &[u8], skip: u64) -> &[u8]
    ensures { result.now ≡ drop skip bytes.now }
{
    if skip >= bytes.len() as u64 {
        return &[];
    }
    &bytes[skip as usize..]
}

/// At most so many bytes from the place on, put together from these pieces.
pub fn put_together(
    alloc: Global,
    pieces: &[Piece],
    first: usize,
    place: u64,
    most: usize,
) -> Result<Vec<u8>, AllocError>
    requires runs { Runs 0 pieces.now }
    requires within { first ≤ length pieces.now }
    requires before { drop place (joined (take first pieces.now)) ≡ [] }
    ensures { IfOk result (λ bytes. bytes.items ≡ take most (drop place (joined pieces.now))) }
{
    let mut bytes = Vec::new(alloc);
    for i in first..pieces.len() {
        let piece = &pieces[i];
        let skip = place.saturating_sub(piece.place);
        let rest = behind(piece.octets.bytes(), skip);
        let wanted = most - bytes.len();
        if wanted <= rest.len() {
            bytes.extend_from_slice(&rest[..wanted])?;
            return Ok(bytes);
        }
        bytes.extend_from_slice(rest)?;
    }
    Ok(bytes)
}
