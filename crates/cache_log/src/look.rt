//! What calls and replies are, and the entry with a number.

ghost use Rattle.std.specs.Prelude.{◌≡◌, option_copied};
ghost use Rattle.cache_types.specs.Entries.{newest_first, entry_at, own_entry, last_moment, asked_in, asked_at, is_made, is_done, is_short, is_told_to_insert, is_not_yet, is_begin, is_end, is_lookup};
ghost use Rattle.cache_types.specs.Objects.{hit_of, object_of};

use crate::asked::Asked;
use cache_types::{CacheCall, Entry, Reply};

/// The reply says that an object was made.
pub fn is_made(reply: &Reply) -> bool
    ensures { result ≡ is_made reply.now }
{
    matches!(reply, Reply::Made)
}

pub fn is_done(reply: &Reply) -> bool
    ensures { result ≡ is_done reply.now }
{
    matches!(reply, Reply::Done)
}

pub fn is_short(reply: &Reply) -> bool
    ensures { result ≡ is_short reply.now }
{
    matches!(reply, Reply::Short)
}

/// The reply has the bit 8: the guest must insert or update.
pub fn is_told_to_insert(reply: &Reply) -> bool
    ensures { result ≡ is_told_to_insert reply.now }
{
    match reply {
        Reply::Got { bits, .. } => *bits >= 8,
        _ => false,
    }
}

pub fn is_not_yet(reply: &Reply) -> bool
    ensures { result ≡ is_not_yet reply.now }
{
    matches!(reply, Reply::NotYet)
}

pub fn is_begin(call: &CacheCall) -> bool
    ensures { result ≡ is_begin call.now }
{
    matches!(call, CacheCall::Begin)
}

pub fn is_end(call: &CacheCall) -> bool
    ensures { result ≡ is_end call.now }
{
    matches!(call, CacheCall::End)
}

pub fn is_lookup(call: &CacheCall) -> bool
    ensures { result ≡ is_lookup call.now }
{
    matches!(call, CacheCall::Lookup { .. } | CacheCall::TxLookup { .. })
}

/// The entry with this number.
pub fn entry_at(entries: &[Entry], number: u64) -> Option<&Entry>
    ensures { option_copied result ≡ entry_at (newest_first entries.now) number }
{
    entries.iter().rev().find(|entry| entry.number == number)
}

/// The entry with this number, where it is one of this guest.
pub fn own_entry(entries: &[Entry], guest: u64, number: u64) -> Option<&Entry>
    ensures { option_copied result ≡ own_entry (newest_first entries.now) guest number }
{
    entries
        .iter()
        .rev()
        .find(|entry| entry.number == number && entry.guest == guest)
}

/// The moment of the newest entry, 0 where there is none.
pub fn last_moment(entries: &[Entry]) -> u64
    ensures { result ≡ last_moment (newest_first entries.now) }
{
    match entries.last() {
        Some(entry) => entry.moment,
        None => 0,
    }
}

/// What the call asks for, where it is a lookup.
pub fn asked_in(call: &CacheCall) -> Option<Asked<'_>>
    ensures { result ≡ asked_in call.now }
{
    match call {
        CacheCall::Lookup { key, headers } => Some(Asked { key, headers }),
        CacheCall::TxLookup { key, headers } => Some(Asked { key, headers }),
        _ => None,
    }
}

/// What the lookup with this number asked for.
pub fn asked_at(entries: &[Entry], number: u64) -> Option<Asked<'_>>
    ensures { result ≡ asked_at (newest_first entries.now) number }
{
    match entry_at(entries, number) {
        Some(entry) => asked_in(&entry.call),
        None => None,
    }
}

/// The object that the entry's lookup found.
pub fn hit_of(entry: &Entry) -> Option<u64>
    ensures { result ≡ hit_of entry.now }
{
    match &entry.reply {
        Reply::Got { hit: Some(hit), .. } => Some(hit.object),
        _ => None,
    }
}

/// The object that the entry made, or that it found.
pub fn object_of(entry: &Entry) -> Option<u64>
    ensures { result ≡ object_of entry.now }
{
    if is_made(&entry.reply) {
        Some(entry.number)
    } else {
        hit_of(entry)
    }
}
