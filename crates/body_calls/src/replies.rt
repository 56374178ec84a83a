//! What the replies to a row's calls say to it.
ghost use Rattle.std.specs.Prelude.{◌≡◌, ◌≤◌, nat_le, IfOk, if◌then◌else◌, length};
ghost use Rattle.body_calls.specs.declared.replies.Heard.TheVariants.{Bytes, Ended, Failed};
ghost use Rattle.body_calls.specs.Heards.{IsWithin};
ghost use Rattle.edge_http_calls.specs.Bodies as bodies;
ghost use Rattle.edge_http_calls.specs.Moves as moves;

use cache_types::{Copied, Octets, OuterReply, Reply};
use edge_abi::Status;
use edge_http_calls::To;
use std::alloc::{AllocError, Global};

/// What a Read was answered: bytes, the end, or what no Read is answered.
#[derive(Drop)]
pub enum Heard {
    Bytes(Octets),
    Ended,
    Failed,
}

/// More bytes than were asked for are none that a cache gives.
fn heard_bytes(alloc: Global, bytes: &Octets, most: usize) -> Result<Heard, AllocError>
    ensures heard { IfOk result (λ heard. heard ≡ (if nat_le (length bytes.now) most then Bytes bytes.now else Failed)) }
    ensures short { IfOk result (λ heard. IsWithin most heard) }
{
    if bytes.bytes().len() <= most {
        Ok(Heard::Bytes(bytes.copy(alloc)?))
    } else {
        Ok(Heard::Failed)
    }
}

/// What a Read of at most so many bytes was answered.
pub fn heard_in(alloc: Global, reply: &OuterReply, most: usize) -> Result<Heard, AllocError>
    ensures heard { IfOk result (λ heard. heard ≡ moves.heard most reply.now Bytes Ended Failed) }
    ensures short { IfOk result (λ heard. IsWithin most heard) }
{
    match reply {
        OuterReply::Cache(stepped) => match &stepped.reply {
            Reply::Bytes(bytes) => heard_bytes(alloc, bytes, most),
            Reply::Ended => Ok(Heard::Ended),
            _ => Ok(Heard::Failed),
        },
        _ => Ok(Heard::Failed),
    }
}

/// How a piece was taken.
pub fn status_of_piece(to: To, reply: &OuterReply) -> Status
    ensures { result ≡ moves.status_of_piece to reply.now }
{
    match (to, reply) {
        (To::Filling { .. }, OuterReply::Cache(stepped)) => match &stepped.reply {
            Reply::Done => Status::Ok,
            Reply::TooLong => Status::Limitexceeded,
            Reply::Refused => Status::Inval,
            _ => Status::Error,
        },
        (To::Down, OuterReply::Sent) => Status::Ok,
        _ => Status::Error,
    }
}

/// How a Finish was taken.
pub fn status_of_finish(reply: &OuterReply) -> Status
    ensures { result ≡ bodies.status_of_end bodies.status_of_finish reply.now }
{
    match reply {
        OuterReply::Cache(stepped) => match &stepped.reply {
            Reply::Done => Status::Ok,
            Reply::Short => Status::Httpincomplete,
            Reply::Refused => Status::Inval,
            _ => Status::Error,
        },
        _ => Status::Error,
    }
}

/// How an Abandon was taken.
pub fn status_of_abandon(reply: &OuterReply) -> Status
    ensures { result ≡ bodies.status_of_end bodies.status_of_abandon reply.now }
{
    match reply {
        OuterReply::Cache(stepped) => match &stepped.reply {
            Reply::Done => Status::Ok,
            Reply::Refused => Status::Inval,
            _ => Status::Error,
        },
        _ => Status::Error,
    }
}

/// How a head or an end of the answer was taken.
pub fn status_of_sent(reply: &OuterReply) -> Status
    ensures { result ≡ bodies.status_of_sent reply.now }
{
    match reply {
        OuterReply::Sent => Status::Ok,
        _ => Status::Error,
    }
}
