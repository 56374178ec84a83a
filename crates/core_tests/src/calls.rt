//! The calls that are made.

ghost use Rattle.std.specs.Prelude.{◌≡◌, ◌≤◌, length, IfOk};
ghost use Rattle.core_tests.specs.Asked.{MayMake};
ghost use Rattle.core_tests.specs.Rounds.{key_of, writing_of, insert_of, lookup_of, tx_lookup_of, purge_of};

use cache_types::{CacheCall, Items, Octets, Rule, Terms, Writing};
use std::alloc::{AllocError, Global};

/// How many calls a round has.
pub const ROUND: u64 = 200_000;

/// How many bytes a piece has.
pub const PIECE: u32 = 65_536;

fn key(alloc: Global, n: u64) -> Result<Octets, AllocError>
    ensures { IfOk result (λ key. key ≡ key_of n) }
{
    Octets::of(alloc, &n.to_be_bytes())
}

fn writing(alloc: Global, n: u64) -> Result<Writing, AllocError>
    ensures { IfOk result (λ writing. writing ≡ writing_of n) }
{
    let mut surrogates = Vec::new(alloc);
    surrogates.push(key(alloc, n)?)?;
    let terms = Terms {
        max_age: 1,
        initial_age: 0,
        stale: 0,
        surrogates: Items::of(surrogates),
        metadata: Octets::of(alloc, &[])?,
    };
    Ok(Writing {
        terms,
        rule: Rule::empty(alloc),
        length: None,
    })
}

fn insert(alloc: Global, n: u64) -> Result<CacheCall, AllocError>
    ensures { IfOk result (λ call. call ≡ insert_of n) }
{
    let key = key(alloc, n)?;
    let writing = writing(alloc, n)?;
    let headers = Items::of(Vec::new(alloc));
    Ok(CacheCall::Insert {
        key,
        headers,
        writing,
    })
}

fn lookup(alloc: Global, n: u64) -> Result<CacheCall, AllocError>
    ensures { IfOk result (λ call. call ≡ lookup_of n) }
{
    let key = key(alloc, n)?;
    let headers = Items::of(Vec::new(alloc));
    Ok(CacheCall::Lookup { key, headers })
}

fn tx_lookup(alloc: Global, n: u64) -> Result<CacheCall, AllocError>
    ensures { IfOk result (λ call. call ≡ tx_lookup_of n) }
{
    let key = key(alloc, n)?;
    let headers = Items::of(Vec::new(alloc));
    Ok(CacheCall::TxLookup { key, headers })
}

fn purge(alloc: Global, n: u64) -> Result<CacheCall, AllocError>
    ensures { IfOk result (λ call. call ≡ purge_of n) }
{
    let key = key(alloc, n)?;
    Ok(CacheCall::Purge { key, soft: true })
}

/// The rounds in their order.
#[derive(Clone, Copy)]
pub enum Round {
    Insert,
    Lookup,
    TxLookup,
    Purge,
}

/// The call of a round with this number from 1.
pub fn call_of(alloc: Global, round: Round, k: u64) -> Result<CacheCall, AllocError>
    requires { k ≤ 200000 }
    ensures { IfOk result MayMake }
{
    match round {
        Round::Insert => insert(alloc, k),
        Round::Lookup => lookup(alloc, k),
        Round::TxLookup => tx_lookup(alloc, ROUND + k),
        Round::Purge => purge(alloc, ROUND + k),
    }
}

fn filled(alloc: Global, count: usize) -> Result<Vec<u8>, AllocError>
    ensures { IfOk result (λ bytes. length bytes.items ≡ count) }
{
    vec![in alloc; 7u8; count]
}

/// The piece is in memory of its own.
fn piece(alloc: Global) -> Result<Octets, AllocError>
    ensures { IfOk result (λ piece. length piece ≡ 65536) }
{
    Octets::from_vec(filled(alloc, PIECE as usize)?)
}

pub fn write(alloc: Global, object: u64) -> Result<CacheCall, AllocError>
    ensures { IfOk result MayMake }
{
    let piece = piece(alloc)?;
    Ok(CacheCall::Write { object, piece })
}

pub fn read(hit: u64, place: u64) -> CacheCall
    ensures { MayMake result }
{
    CacheCall::Read {
        hit,
        place,
        most: PIECE,
    }
}
