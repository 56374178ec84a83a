//! The replies on an object's body: writes, the finish, an abandon, reads.

ghost use Rattle.std.specs.Prelude.{◌≡◌, IfOk, Some, is_some, option_copied};
ghost use Rattle.cache_types.specs.Answer.{done_if, finish_reply, own_object, read_reply, writable, write_reply};
ghost use Rattle.cache_types.specs.Entries.{newest_first};
ghost use Rattle.cache_types.specs.Legal.{IsLegal};
ghost use Rattle.cache_types.specs.Objects.{insertion_at};
ghost use Rattle.cache_core.specs.Knows.{Knows};
ghost use Rattle.cache_core.specs.Writes.{writable_by, writable_at, write_by, is_short_by, finish_by, read_by};

use crate::entries::entry_at;
use crate::parts::Parts;
use crate::transactions::own_entry;
use cache_log::{is_made, object_of};
use cache_objects::Standing;
use cache_types::{Entry, MOST_OBJECT, Octets, Reply};
use std::alloc::{AllocError, Global};

/// An entry made the object.
fn is_object(entries: &[Entry], object: u64) -> bool
    requires { IsLegal entries.now }
    ensures { result ≡ is_some (insertion_at (newest_first entries.now) object) }
{
    match entry_at(entries, object) {
        Some(entry) => is_made(&entry.reply),
        None => false,
    }
}

/// What is held of the object, where it is the guest's and its body is under way.
fn writable_by(guest: u64, standing: &Standing) -> Option<&Standing>
    ensures { option_copied result ≡ writable_by guest standing.now }
{
    let under_way = !standing.finished && !standing.abandoned;
    if standing.guest == guest && under_way {
        Some(standing)
    } else {
        None
    }
}

/// What is held of the guest's own object whose body is under way.
fn writable<'a>(
    parts: &'a Parts,
    entries: &[Entry],
    guest: u64,
    object: u64,
) -> Result<Option<&'a Standing>, AllocError>
    requires legal { IsLegal entries.now }
    requires knows { Knows parts.now (newest_first entries.now) }
    ensures { IfOk result (λ found. option_copied found ≡ writable_at (newest_first entries.now) guest object) }
{
    // Beside an object that an entry made, something may be held that no entry made.
    if !is_object(entries, object) {
        return Ok(None);
    }
    match parts.objects.get(&object) {
        Some(standing) => Ok(writable_by(guest, standing)),
        None => Err(AllocError),
    }
}

fn write_by(piece: &Octets, standing: Option<&Standing>) -> Reply
    ensures { result ≡ write_by piece.now (option_copied standing.entry) }
{
    let Some(standing) = standing else {
        return Reply::Refused;
    };
    let len = u128::from(standing.body.len()) + piece.bytes().len() as u128;
    if u128::from(standing.declared.unwrap_or(MOST_OBJECT)) < len {
        Reply::TooLong
    } else {
        Reply::Done
    }
}

/// The reply to a write of a piece.
pub fn write(
    parts: &Parts,
    entries: &[Entry],
    guest: u64,
    object: u64,
    piece: &Octets,
) -> Result<Reply, AllocError>
    requires legal { IsLegal entries.now }
    requires knows { Knows parts.now (newest_first entries.now) }
    ensures { IfOk result (λ reply. reply ≡ write_reply (newest_first entries.now) object piece.now (writable (newest_first entries.now) guest object)) }
{
    Ok(write_by(piece, writable(parts, entries, guest, object)?))
}

/// A declared length isn't reached.
fn is_short_by(standing: &Standing) -> bool
    ensures { result ≡ is_short_by standing.now }
{
    match standing.declared {
        Some(declared) => standing.body.len() < declared,
        None => false,
    }
}

fn finish_by(standing: Option<&Standing>) -> Reply
    ensures { result ≡ finish_by (option_copied standing.entry) }
{
    match standing {
        Some(standing) => {
            if is_short_by(standing) {
                Reply::Short
            } else {
                Reply::Done
            }
        }
        None => Reply::Refused,
    }
}

/// The reply to a finish.
pub fn finish(
    parts: &Parts,
    entries: &[Entry],
    guest: u64,
    object: u64,
) -> Result<Reply, AllocError>
    requires legal { IsLegal entries.now }
    requires knows { Knows parts.now (newest_first entries.now) }
    ensures { IfOk result (λ reply. reply ≡ finish_reply (newest_first entries.now) object (writable (newest_first entries.now) guest object)) }
{
    Ok(finish_by(writable(parts, entries, guest, object)?))
}

/// An abandon of the object succeeds.
pub fn may_abandon(
    parts: &Parts,
    entries: &[Entry],
    guest: u64,
    object: u64,
) -> Result<bool, AllocError>
    requires legal { IsLegal entries.now }
    requires knows { Knows parts.now (newest_first entries.now) }
    ensures { IfOk result (λ may. may ≡ is_some (writable (newest_first entries.now) guest object)) }
{
    Ok(writable(parts, entries, guest, object)?.is_some())
}

/// Bytes past the place come first; so Ended and Failed never hide one.
fn read_by(alloc: Global, place: u64, most: u32, standing: &Standing) -> Result<Reply, AllocError>
    ensures { IfOk result (λ reply. reply ≡ read_by place most standing.now) }
{
    if place < standing.body.len() {
        return Ok(Reply::Bytes(standing.body.part(alloc, place, most)?));
    }
    if standing.finished {
        Ok(Reply::Ended)
    } else if standing.abandoned {
        Ok(Reply::Failed)
    } else {
        Ok(Reply::NotYet)
    }
}

/// The reply to a read of this object.
fn read_of(
    alloc: Global,
    parts: &Parts,
    entries: &[Entry],
    place: u64,
    most: u32,
    object: u64,
) -> Result<Reply, AllocError>
    requires legal { IsLegal entries.now }
    requires knows { Knows parts.now (newest_first entries.now) }
    ensures { IfOk result (λ reply. reply ≡ read_reply (newest_first entries.now) place most (Some object)) }
{
    // What a lookup found was made.
    if !is_object(entries, object) {
        return Err(AllocError);
    }
    match parts.objects.get(&object) {
        Some(standing) => read_by(alloc, place, most, standing),
        None => Err(AllocError),
    }
}

/// The object of the guest's own entry.
fn own_object(entries: &[Entry], guest: u64, number: u64) -> Option<u64>
    requires { IsLegal entries.now }
    ensures { result ≡ own_object (newest_first entries.now) guest number }
{
    match own_entry(entries, guest, number) {
        Some(entry) => object_of(entry),
        None => None,
    }
}

/// The reply to a read: at most so many bytes from a place on, shared where they lie in one piece.
pub fn read(
    alloc: Global,
    parts: &Parts,
    entries: &[Entry],
    guest: u64,
    hit: u64,
    place: u64,
    most: u32,
) -> Result<Reply, AllocError>
    requires legal { IsLegal entries.now }
    requires knows { Knows parts.now (newest_first entries.now) }
    ensures { IfOk result (λ reply. reply ≡ read_reply (newest_first entries.now) place most (own_object (newest_first entries.now) guest hit)) }
{
    match own_object(entries, guest, hit) {
        Some(object) => read_of(alloc, parts, entries, place, most, object),
        None => Ok(Reply::Refused),
    }
}
