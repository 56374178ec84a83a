//! What the parts of a body begin with.
ghost use Rattle.std.specs.Prelude.{◌≡◌, IfOk};
ghost use Rattle.body_calls.specs.Fronts.{front_of, own_front, IsShort};

use cache_types::Octets;
use edge_body::{Body, Part};
use std::alloc::AllocError;

/// The first bytes of some parts, and the parts that are left then; or the hit that stands first, and the parts behind it.
#[derive(Drop)]
pub enum Front {
    Bytes(Octets, Body),
    Hit {
        hit: u64,
        from: u64,
        length: Option<u64>,
        left: Body,
    },
    Nothing,
}

/// The first bytes, at most so many; the rest is a part at the front.
fn cut(bytes: &Octets, mut left: Body, most: usize) -> Result<Front, AllocError>
    ensures front { IfOk result (λ front. front ≡ own_front most bytes.now left) }
    ensures short { IfOk result (λ front. IsShort most front) }
{
    let len = bytes.bytes().len();
    let until = most.min(len);
    left.push_front(Part::Own(bytes.piece(until, len)?))?;
    Ok(Front::Bytes(bytes.piece(0, until)?, left))
}

/// What these parts begin with, at most so many bytes of it; parts that have none are passed over.
pub fn front_of(mut left: Body, most: usize) -> Result<Front, AllocError>
    ensures front { IfOk result (λ front. front ≡ front_of most left) }
    ensures short { IfOk result (λ front. IsShort most front) }
{
    while let Some(part) = left.pop_front() {
        match part {
            Part::Own(bytes) => {
                if !bytes.bytes().is_empty() {
                    return cut(&bytes, left, most);
                }
            }
            Part::Rest { hit, place, length } => {
                return Ok(Front::Hit {
                    hit,
                    from: place,
                    length,
                    left,
                });
            }
        }
    }
    Ok(Front::Nothing)
}
