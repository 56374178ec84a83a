//! A body that is read whole.
ghost use Rattle.std.specs.Prelude.{◌≡◌, nat_le, IfOk, if◌then◌else◌, length};
ghost use Rattle.edge_abi.specs.Goes.{MayMake};
ghost use Rattle.edge_http_calls.specs.Moves as moves;
ghost use Rattle.edge_pending.specs.Gathers as spec;
ghost use Rattle.edge_pending.specs.declared.gathering.Heard.TheVariants.{Bytes, Ended, Failed};

use cache_types::{CacheCall, Copied, Octets, OuterCall, OuterReply, Reply};
use edge_body::{Body, Part};
use edge_words::Text;
use std::alloc::{AllocError, Global};

/// The most bytes of one Read.
const MOST_READ: u32 = 65_536;

/// The own bytes before the first hit, and the hit; or all bytes, where there is none.
#[derive(Drop)]
pub enum Front {
    Hit {
        had: Text,
        hit: u64,
        place: u64,
        left: Body,
    },
    Whole(Text),
}

/// What some parts begin with, behind the bytes that are had.
pub fn front_of(mut had: Text, mut left: Body) -> Result<Front, AllocError>
    ensures { IfOk result (λ front. front ≡ spec.front_of had left) }
{
    while let Some(part) = left.pop_front() {
        match part {
            Part::Own(bytes) => had = had.plain(bytes.bytes())?,
            Part::Rest { hit, place, .. } => {
                return Ok(Front::Hit {
                    had,
                    hit,
                    place,
                    left,
                });
            }
        }
    }
    Ok(Front::Whole(had))
}

/// The call that reads a hit from a place.
#[tactic(auto, using(crate::proofs::Short::read_within))]
pub fn read_at(hit: u64, place: u64) -> OuterCall
    ensures call { result ≡ moves.read_at hit place 65536 }
    ensures may { MayMake result }
{
    OuterCall::Cache(CacheCall::Read {
        hit,
        place,
        most: MOST_READ,
    })
}

/// What a Read was answered: bytes, the end, or what no Read is answered.
#[derive(Drop)]
pub enum Heard {
    Bytes(Octets),
    Ended,
    Failed,
}

/// More bytes than were asked for are none that a cache gives.
fn heard_bytes(alloc: Global, bytes: &Octets) -> Result<Heard, AllocError>
    ensures { IfOk result (λ heard. heard ≡ (if nat_le (length bytes.now) 65536 then Bytes bytes.now else Failed)) }
{
    if bytes.bytes().len() <= MOST_READ as usize {
        Ok(Heard::Bytes(bytes.copy(alloc)?))
    } else {
        Ok(Heard::Failed)
    }
}

/// What a Read was answered.
pub fn heard_in(alloc: Global, reply: &OuterReply) -> Result<Heard, AllocError>
    ensures { IfOk result (λ heard. heard ≡ moves.heard 65536 reply.now Bytes Ended Failed) }
{
    match reply {
        OuterReply::Cache(stepped) => match &stepped.reply {
            Reply::Bytes(bytes) => heard_bytes(alloc, bytes),
            Reply::Ended => Ok(Heard::Ended),
            _ => Ok(Heard::Failed),
        },
        _ => Ok(Heard::Failed),
    }
}
