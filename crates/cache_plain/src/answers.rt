//! The one reply to a call, after the entries so far.

ghost use Rattle.std.specs.Prelude.{◌≡◌, IfOk};
ghost use Rattle.cache_types.specs.Entries.{newest_first};
ghost use Rattle.cache_types.specs.Answer.{finding, lookup_reply, held_reply, free_reply, tx_lookup_reply, is_fresh_finding, made_if, done_if, tx_lookup_answer, own_object, may_update, is_close_of, is_closed, is_own_lookup, may_close, is_under_way, writable, room_of, write_reply, is_short_of, finish_reply, read_reply, answer};

use crate::bodies::{is_abandoned, is_finished, is_made_by, written_len};
use crate::findings::{Finding, find_with_terms, got};
use crate::insertions::{Insertion, insertion_at};
use crate::parts::part_of;
use crate::renewals::hit_at;
use crate::transactions::{goal_of, is_held, is_own_open};
use cache_log::{is_done, is_lookup, object_of, own_entry};
use cache_types::{
    CacheCall, Entry, Fields, MOST_OBJECT, Octets, Reply, is_fresh_at, is_usable_at,
};
use std::alloc::{AllocError, Global};

fn done_if(good: bool) -> Reply
    ensures { result ≡ done_if good }
{
    if good { Reply::Done } else { Reply::Refused }
}

fn made_if(good: bool) -> Reply
    ensures { result ≡ made_if good }
{
    if good { Reply::Made } else { Reply::Refused }
}

/// The reply to a lookup that waits for nobody.
fn lookup_reply(
    alloc: Global,
    entries: &[Entry],
    found: &Option<Finding<'_>>,
) -> Result<Reply, AllocError>
    ensures { IfOk result (λ reply. reply ≡ lookup_reply (newest_first entries.now) found.now) }
{
    match found {
        None => Ok(Reply::Got { bits: 0, hit: None }),
        Some(found) => got(alloc, entries, false, found),
    }
}

/// While another transaction has the goal, what is found and usable is told, and nothing else.
fn held_reply(
    alloc: Global,
    entries: &[Entry],
    found: &Option<Finding<'_>>,
) -> Result<Reply, AllocError>
    ensures { IfOk result (λ reply. reply ≡ held_reply (newest_first entries.now) found.now) }
{
    match found {
        None => Ok(Reply::NotYet),
        Some(found) => {
            if is_usable_at(found.renewal.terms, found.age) {
                got(alloc, entries, false, found)
            } else {
                Ok(Reply::NotYet)
            }
        }
    }
}

/// The goal is free, and this guest must insert or update.
fn free_reply(
    alloc: Global,
    entries: &[Entry],
    found: &Option<Finding<'_>>,
) -> Result<Reply, AllocError>
    ensures { IfOk result (λ reply. reply ≡ free_reply (newest_first entries.now) found.now) }
{
    match found {
        None => Ok(Reply::Got { bits: 8, hit: None }),
        Some(found) => got(alloc, entries, true, found),
    }
}

fn is_fresh(found: &Option<Finding<'_>>) -> bool
    ensures { result ≡ is_fresh_finding found.now }
{
    match found {
        None => false,
        Some(found) => is_fresh_at(found.renewal.terms, found.age, found.softened),
    }
}

/// The reply to a transactional lookup: what is fresh is told; else it counts whether the goal is
/// held.
fn tx_lookup(
    alloc: Global,
    entries: &[Entry],
    moment: u64,
    key: &Octets,
    headers: &Fields,
) -> Result<Reply, AllocError>
    ensures { IfOk result (λ reply. reply ≡ tx_lookup_answer (newest_first entries.now) moment key.now headers.now) }
{
    let found = find_with_terms(alloc, entries, moment, key, headers)?;
    if is_fresh(&found) {
        return lookup_reply(alloc, entries, &found);
    }
    let goal = goal_of(alloc, entries, key, headers)?;
    if is_held(alloc, entries, &goal)? {
        held_reply(alloc, entries, &found)
    } else {
        free_reply(alloc, entries, &found)
    }
}

/// The object of the guest's own entry.
fn own_object(entries: &[Entry], guest: u64, number: u64) -> Option<u64>
    ensures { result ≡ own_object (newest_first entries.now) guest number }
{
    match own_entry(entries, guest, number) {
        Some(entry) => object_of(entry),
        None => None,
    }
}

/// An own open transaction whose lookup found an object.
fn may_update(entries: &[Entry], guest: u64, tx: u64) -> bool
    ensures { result ≡ may_update (newest_first entries.now) guest tx }
{
    is_own_open(entries, guest, tx) && hit_at(entries, tx).is_some()
}

fn is_close_of(number: u64, call: &CacheCall) -> bool
    ensures { result ≡ is_close_of number call.now }
{
    match call {
        CacheCall::Close { tx } => *tx == number,
        _ => false,
    }
}

fn is_closed(entries: &[Entry], number: u64) -> bool
    ensures { result ≡ is_closed (newest_first entries.now) number }
{
    entries.iter().rev().any(|entry| is_close_of(number, &entry.call) && is_done(&entry.reply))
}

fn is_own_lookup(entries: &[Entry], guest: u64, number: u64) -> bool
    ensures { result ≡ is_own_lookup (newest_first entries.now) guest number }
{
    match own_entry(entries, guest, number) {
        Some(entry) => is_lookup(&entry.call),
        None => false,
    }
}

/// An own lookup that wasn't closed before.
fn may_close(entries: &[Entry], guest: u64, tx: u64) -> bool
    ensures { result ≡ may_close (newest_first entries.now) guest tx }
{
    is_own_lookup(entries, guest, tx) && !is_closed(entries, tx)
}

/// The object is neither finished nor abandoned.
fn is_under_way(entries: &[Entry], object: u64) -> bool
    ensures { result ≡ is_under_way (newest_first entries.now) object }
{
    !is_finished(entries, object) && !is_abandoned(entries, object)
}

/// The guest's own object, where it is neither finished nor abandoned.
fn writable(entries: &[Entry], guest: u64, object: u64) -> Option<Insertion<'_>>
    ensures { result ≡ writable (newest_first entries.now) guest object }
{
    if is_made_by(entries, object, guest) && is_under_way(entries, object) {
        insertion_at(entries, object)
    } else {
        None
    }
}

/// The greatest length of an object in bytes: the one declared, else the limit.
fn room_of(made: &Insertion<'_>) -> u64
    ensures { result ≡ room_of made.now }
{
    made.writing.length.unwrap_or(MOST_OBJECT)
}

fn write_reply(entries: &[Entry], guest: u64, object: u64, piece: &Octets) -> Reply
    ensures { result ≡ write_reply (newest_first entries.now) object piece.now (writable (newest_first entries.now) guest object) }
{
    match writable(entries, guest, object) {
        None => Reply::Refused,
        Some(made) => {
            let length = written_len(entries, object).saturating_add(piece.bytes().len() as u128);
            if u128::from(room_of(&made)) < length {
                Reply::TooLong
            } else {
                Reply::Done
            }
        }
    }
}

/// A declared length isn't reached.
fn is_short_of(entries: &[Entry], object: u64, made: &Insertion<'_>) -> bool
    ensures { result ≡ is_short_of (newest_first entries.now) object made.now }
{
    match made.writing.length {
        Some(declared) => written_len(entries, object) < u128::from(declared),
        None => false,
    }
}

fn finish_reply(entries: &[Entry], guest: u64, object: u64) -> Reply
    ensures { result ≡ finish_reply (newest_first entries.now) object (writable (newest_first entries.now) guest object) }
{
    match writable(entries, guest, object) {
        None => Reply::Refused,
        Some(made) => {
            if is_short_of(entries, object, &made) {
                Reply::Short
            } else {
                Reply::Done
            }
        }
    }
}

/// Bytes past the place come first; so Ended and Failed never hide one.
fn read_reply(
    alloc: Global,
    entries: &[Entry],
    object: Option<u64>,
    place: u64,
    most: u32,
) -> Result<Reply, AllocError>
    ensures { IfOk result (λ reply. reply ≡ read_reply (newest_first entries.now) place most object) }
{
    let Some(object) = object else {
        return Ok(Reply::Refused);
    };
    if u128::from(place) < written_len(entries, object) {
        let bytes = part_of(alloc, entries, object, place, most)?;
        return Ok(Reply::Bytes(Octets::from_vec(bytes)?));
    }
    if is_finished(entries, object) {
        Ok(Reply::Ended)
    } else if is_abandoned(entries, object) {
        Ok(Reply::Failed)
    } else {
        Ok(Reply::NotYet)
    }
}

/// The one reply to a guest's call at a moment, after these entries.
pub fn answer(
    alloc: Global,
    entries: &[Entry],
    guest: u64,
    moment: u64,
    call: &CacheCall,
) -> Result<Reply, AllocError>
    ensures { IfOk result (λ reply. reply ≡ answer (newest_first entries.now) guest moment call.now) }
{
    match call {
        CacheCall::Begin => Ok(Reply::Begun),
        CacheCall::Lookup { key, headers } => {
            let found = find_with_terms(alloc, entries, moment, key, headers)?;
            lookup_reply(alloc, entries, &found)
        }
        CacheCall::TxLookup { key, headers } => tx_lookup(alloc, entries, moment, key, headers),
        CacheCall::Insert { .. } => Ok(Reply::Made),
        CacheCall::TxInsert { tx, .. } => Ok(made_if(is_own_open(entries, guest, *tx))),
        CacheCall::TxUpdate { tx, .. } => Ok(done_if(may_update(entries, guest, *tx))),
        CacheCall::TxCancel { tx } => Ok(done_if(is_own_open(entries, guest, *tx))),
        CacheCall::Close { tx } => Ok(done_if(may_close(entries, guest, *tx))),
        CacheCall::Write { object, piece } => Ok(write_reply(entries, guest, *object, piece)),
        CacheCall::Finish { object } => Ok(finish_reply(entries, guest, *object)),
        CacheCall::Abandon { object } => {
            Ok(done_if(writable(entries, guest, *object).is_some()))
        }
        CacheCall::Read { hit, place, most } => {
            let object = own_object(entries, guest, *hit);
            read_reply(alloc, entries, object, *place, *most)
        }
        CacheCall::Purge { .. } => Ok(Reply::Done),
        CacheCall::End => Ok(Reply::Done),
    }
}
