//! Outer calls: what they say, and what they are answered.

use cache_types::{CacheCall, Hit, Octets, OuterCall, OuterReply, Reply, Stepped, Writing};
use std::alloc::{AllocError, Global};

/// What an outer call is answered. A lookup has the number 7, where it got nothing and must insert or found the object 5; an
/// insertion has the number 8; `Bytes` are `xy`.
#[derive(Clone, Copy)]
pub enum Said {
    Got,
    Hit,
    Made,
    Done,
    Refused,
    Short,
    TooLong,
    Failed,
    Bytes,
    Ended,
    Sent,
    NotReady,
    Now(u64),
}

fn cached(number: u64, reply: Reply) -> OuterReply {
    OuterReply::Cache(Stepped { number, reply })
}

/// A fresh object of no known length.
fn found(alloc: Global) -> Result<Reply, AllocError> {
    let hit = Hit {
        object: 5,
        age: 0,
        max_age: 10,
        stale: 0,
        length: None,
        metadata: Octets::of(alloc, b"")?,
    };
    Ok(Reply::Got {
        bits: 3,
        hit: Some(hit),
    })
}

pub fn reply_of(alloc: Global, said: Said) -> Result<OuterReply, AllocError> {
    match said {
        Said::Got => Ok(cached(7, Reply::Got { bits: 8, hit: None })),
        Said::Hit => Ok(cached(7, found(alloc)?)),
        Said::Made => Ok(cached(8, Reply::Made)),
        Said::Done => Ok(cached(9, Reply::Done)),
        Said::Refused => Ok(cached(9, Reply::Refused)),
        Said::Short => Ok(cached(9, Reply::Short)),
        Said::TooLong => Ok(cached(9, Reply::TooLong)),
        Said::Failed => Ok(cached(9, Reply::Failed)),
        Said::Bytes => Ok(cached(9, Reply::Bytes(Octets::of(alloc, b"xy")?))),
        Said::Ended => Ok(cached(9, Reply::Ended)),
        Said::Sent => Ok(OuterReply::Sent),
        Said::NotReady => Ok(OuterReply::NotReady),
        Said::Now(reading) => Ok(OuterReply::Now(reading)),
    }
}

fn say_number(number: u64, told: &mut Vec<u8>) -> Result<(), AllocError> {
    told.extend_from_slice(number.to_le_bytes().as_slice())
}

/// Greatest age, length and metadata; a length that isn't declared is all ones.
fn say_writing(writing: &Writing, told: &mut Vec<u8>) -> Result<(), AllocError> {
    say_number(writing.terms.max_age, told)?;
    say_number(writing.length.unwrap_or(u64::MAX), told)?;
    told.extend_from_slice(writing.terms.metadata.bytes())
}

fn say_cached(call: &CacheCall, told: &mut Vec<u8>) -> Result<(), AllocError> {
    match call {
        CacheCall::Write { piece, .. } => told.extend_from_slice(piece.bytes()),
        CacheCall::TxLookup { key, headers } => {
            told.extend_from_slice(key.bytes())?;
            say_number(headers.items().len() as u64, told)
        }
        CacheCall::TxInsert { tx, writing } => {
            say_number(*tx, told)?;
            say_writing(writing, told)
        }
        _ => Ok(()),
    }
}

/// Adds what a call says: the bytes that it writes; the key of a lookup in a transaction and how many headers it has; the
/// number of an insertion's transaction and what it says of its object; the endpoint of a line and how long that is.
pub fn say(call: &OuterCall, told: &mut Vec<u8>) -> Result<(), AllocError> {
    match call {
        OuterCall::Cache(call) => say_cached(call, told),
        OuterCall::Piece { bytes } => told.extend_from_slice(bytes.bytes()),
        OuterCall::Log { endpoint, line } => {
            told.extend_from_slice(endpoint.bytes())?;
            say_number(line.bytes().len() as u64, told)
        }
        _ => Ok(()),
    }
}
