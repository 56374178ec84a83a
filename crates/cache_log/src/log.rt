//! The list of entries: whether it is full, its next entry, the room for it, and appending it.

ghost use Rattle.std.specs.Prelude.{◌≡◌, ◌+◌, ◌≤◌, [], ◌∷◌, ◌++◌, length, OnOk, vec_capacity};
ghost use Rattle.cache_types.specs.Entries.{newest_first};
ghost use Rattle.cache_types.specs.Legal.{IsNext};
ghost use Rattle.cache_types.specs.Step.{entry_with, live_guests, is_full};
ghost use Rattle.cache_log.specs.Kept.{IsKept, HasRoom};

use crate::look::{is_begin, is_end, last_moment};
use cache_types::{CacheCall, Entry, Reply};
use std::alloc::AllocError;

/// No room is left for an entry of this call.
pub fn is_full(entries: &[Entry], live: usize, most: u64, call: &CacheCall) -> bool
    requires { live ≡ length (live_guests (newest_first entries.now)) }
    ensures { result ≡ is_full (newest_first entries.now) most call.now }
{
    let taken = entries.len() as u128 + live as u128;
    match call {
        CacheCall::Begin => u128::from(most) < taken + 2,
        CacheCall::End => false,
        _ => u128::from(most) <= taken,
    }
}

/// The entry of a call and a reply to it.
pub fn entry_with(
    entries: &[Entry],
    guest: u64,
    reading: u64,
    call: CacheCall,
    reply: Reply,
) -> Entry
    ensures { result ≡ entry_with (newest_first entries.now) guest reading call reply }
{
    let number = entries.len() as u64 + 1;
    let guest = if is_begin(&call) { number } else { guest };
    Entry {
        number,
        guest,
        moment: last_moment(entries).max(reading),
        call,
        reply,
    }
}

/// Makes room for the entry of this call, and for the End of each guest that is live after it.
pub fn make_room(entries: &mut Vec<Entry>, live: usize, call: &CacheCall) -> Result<(), AllocError>
    requires { length entries.old.items + live ≤ vec_capacity entries.old }
    ensures same { entries.new.items ≡ entries.old.items }
    ensures grown { vec_capacity entries.old ≤ vec_capacity entries.new }
    ensures room { OnOk result (HasRoom entries.new.items live (vec_capacity entries.new) call.now) }
{
    match call {
        CacheCall::Begin => entries.reserve(live.saturating_add(2)),
        CacheCall::End => Ok(()),
        _ => entries.reserve(live.saturating_add(1)),
    }
}

/// Appends an entry that may follow, and counts the live guests after it.
pub fn append(entries: &mut Vec<Entry>, live: &mut usize, entry: Entry)
    requires kept { IsKept entries.old.items live.old (vec_capacity entries.old) }
    requires next { IsNext (newest_first entries.old.items) entry }
    requires room { HasRoom entries.old.items live.old (vec_capacity entries.old) entry.call }
    ensures appended { entries.new.items ≡ entries.old.items ++ entry ∷ [] }
    ensures kept { IsKept entries.new.items live.new (vec_capacity entries.new) }
{
    let begins = is_begin(&entry.call);
    let ends = is_end(&entry.call);
    entries.push_reserved(entry);
    if begins {
        *live += 1;
    } else if ends {
        *live -= 1;
    }
}
