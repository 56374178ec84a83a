//! The bytes that were written on an object, and whether its body is finished or abandoned.

ghost use Rattle.std.specs.Prelude.{◌≡◌, ◌+◌, ◌*◌, ◌^◌, ◌<◌, ◌≤◌, IfOk, length, if◌then◌else◌};
ghost use Rattle.cache_types.specs.Entries.{newest_first};
ghost use Rattle.cache_types.specs.Objects.{piece_by, piece_of, written, is_finish_of, is_abandon_of, is_finished, is_made_by, ends_maker, abandons, is_abandoned, is_alive};

use crate::insertions::insertion_at;
use crate::renewals::is_purged;
use cache_log::{is_done, is_end, is_short};
use cache_types::{CacheCall, Entry};
use std::alloc::{AllocError, Global};

/// The bytes that the call adds to the object.
fn piece_by(object: u64, call: &CacheCall) -> &[u8]
    ensures { result.now ≡ piece_by object call.now }
{
    match call {
        CacheCall::Write {
            object: written,
            piece,
        } => {
            if *written == object {
                piece.bytes()
            } else {
                &[]
            }
        }
        _ => &[],
    }
}

/// The bytes that the entry adds to the object.
pub fn piece_of(object: u64, entry: &Entry) -> &[u8]
    ensures { result.now ≡ piece_of object entry.now }
{
    if is_done(&entry.reply) {
        piece_by(object, &entry.call)
    } else {
        &[]
    }
}

/// The pieces of the object, joined in their order.
pub fn written(alloc: Global, entries: &[Entry], object: u64) -> Result<Vec<u8>, AllocError>
    ensures { IfOk result (λ bytes. bytes.items ≡ written (newest_first entries.now) object) }
{
    let mut bytes = Vec::new(alloc);
    for i in 0..entries.len() {
        bytes.extend_from_slice(piece_of(object, &entries[i]))?;
    }
    Ok(bytes)
}

/// How many bytes of the object are written.
pub fn written_len(entries: &[Entry], object: u64) -> u128
    ensures { result ≡ length (written (newest_first entries.now) object) }
{
    let mut total = 0u128;
    for i in 0..entries.len() {
        total += piece_of(object, &entries[i]).len() as u128;
    }
    total
}

fn is_finish_of(object: u64, call: &CacheCall) -> bool
    ensures { result ≡ is_finish_of object call.now }
{
    match call {
        CacheCall::Finish { object: finished } => *finished == object,
        _ => false,
    }
}

fn is_abandon_of(object: u64, call: &CacheCall) -> bool
    ensures { result ≡ is_abandon_of object call.now }
{
    match call {
        CacheCall::Abandon { object: abandoned } => *abandoned == object,
        _ => false,
    }
}

/// The body is whole.
pub fn is_finished(entries: &[Entry], object: u64) -> bool
    ensures { result ≡ is_finished (newest_first entries.now) object }
{
    entries.iter().rev().any(|entry| is_finish_of(object, &entry.call) && is_done(&entry.reply))
}

/// The object's insertion is this guest's.
pub fn is_made_by(entries: &[Entry], object: u64, guest: u64) -> bool
    ensures { result ≡ is_made_by (newest_first entries.now) object guest }
{
    match insertion_at(entries, object) {
        Some(made) => made.guest == guest,
        None => false,
    }
}

/// The entry ends the guest that made the object, while it isn't finished.
fn ends_maker(before: &[Entry], object: u64, entry: &Entry) -> bool
    ensures { result ≡ ends_maker (newest_first before.now) object entry.now }
{
    is_end(&entry.call) && (is_made_by(before, object, entry.guest) && !is_finished(before, object))
}

/// The entry abandons the object.
fn abandons(before: &[Entry], object: u64, entry: &Entry) -> bool
    ensures { result ≡ abandons (newest_first before.now) object entry.now }
{
    let abandoned = is_abandon_of(object, &entry.call) && is_done(&entry.reply);
    let fell_short = is_finish_of(object, &entry.call) && is_short(&entry.reply);
    abandoned || (fell_short || ends_maker(before, object, entry))
}

/// The body never becomes whole.
pub fn is_abandoned(entries: &[Entry], object: u64) -> bool
    ensures { result ≡ is_abandoned (newest_first entries.now) object }
{
    let mut abandoned = false;
    for i in 0..entries.len() {
        if abandons(&entries[..i], object, &entries[i]) {
            abandoned = true;
        }
    }
    abandoned
}

/// The object is neither abandoned nor purged for good.
pub fn is_alive(entries: &[Entry], object: u64) -> bool
    ensures { result ≡ is_alive (newest_first entries.now) object }
{
    !is_abandoned(entries, object) && !is_purged(entries, object)
}
