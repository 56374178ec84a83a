//! A guest's own lookups and transactions, by their entries.

ghost use Rattle.std.specs.Prelude.{◌≡◌, is_some, option_copied};
ghost use Rattle.cache_types.specs.Answer.{may_update, is_own_lookup, may_close};
ghost use Rattle.cache_types.specs.Entries.{newest_first, own_entry};
ghost use Rattle.cache_types.specs.Laws.{is_tx_lookup};
ghost use Rattle.cache_types.specs.Legal.{IsLegal};
ghost use Rattle.cache_types.specs.Transactions.{is_own_open};
ghost use Rattle.cache_objects.specs.Guests.{list_at};
ghost use Rattle.cache_core.specs.Knows.{Knows};
ghost use Rattle.cache_core.specs.Waits.{Awaits, is_standing, open_by};

use crate::entries::entry_at;
use crate::looking::hit_at;
use crate::parts::Parts;
use crate::waits::Waits;
use cache_log::{is_lookup, is_told_to_insert};
use cache_objects::GuestMap;
use cache_types::{CacheCall, Entry};
use cache_waiters::{EndingMap, is_closed, is_over};

/// The entry with this number, where it is one of this guest.
pub fn own_entry(entries: &[Entry], guest: u64, number: u64) -> Option<&Entry>
    requires { IsLegal entries.now }
    ensures { option_copied result ≡ own_entry (newest_first entries.now) guest number }
{
    match entry_at(entries, number) {
        Some(entry) => {
            if entry.guest == guest {
                Some(entry)
            } else {
                None
            }
        }
        None => None,
    }
}

/// No call ended the lookup, and its guest is live.
pub fn is_standing(endings: &EndingMap, guests: &GuestMap, number: u64, guest: u64) -> bool
    ensures { result ≡ is_standing endings.now guests.now number guest }
{
    !is_over(endings, number) && guests.get(&guest).is_some()
}

fn is_tx_lookup(call: &CacheCall) -> bool
    ensures { result ≡ is_tx_lookup call.now }
{
    matches!(call, CacheCall::TxLookup { .. })
}

/// A transactional lookup that was told to insert, and that still stands.
fn is_open(endings: &EndingMap, guests: &GuestMap, entry: &Entry) -> bool
    ensures { result ≡ open_by endings.now guests.now entry.now }
{
    let told = is_tx_lookup(&entry.call) && is_told_to_insert(&entry.reply);
    told && is_standing(endings, guests, entry.number, entry.guest)
}

/// The guest's own transaction with this number is open.
pub fn is_own_open(parts: &Parts, waits: &Waits, entries: &[Entry], guest: u64, tx: u64) -> bool
    requires legal { IsLegal entries.now }
    requires knows { Knows parts.now (newest_first entries.now) }
    requires awaits { Awaits waits.now (newest_first entries.now) }
    ensures { result ≡ is_own_open (newest_first entries.now) guest tx }
{
    match own_entry(entries, guest, tx) {
        Some(entry) => is_open(&waits.endings, &parts.guests, entry),
        None => false,
    }
}

/// An own open transaction whose lookup found an object.
pub fn may_update(parts: &Parts, waits: &Waits, entries: &[Entry], guest: u64, tx: u64) -> bool
    requires legal { IsLegal entries.now }
    requires knows { Knows parts.now (newest_first entries.now) }
    requires awaits { Awaits waits.now (newest_first entries.now) }
    ensures { result ≡ may_update (newest_first entries.now) guest tx }
{
    is_own_open(parts, waits, entries, guest, tx) && hit_at(entries, tx).is_some()
}

fn is_own_lookup(entries: &[Entry], guest: u64, number: u64) -> bool
    requires { IsLegal entries.now }
    ensures { result ≡ is_own_lookup (newest_first entries.now) guest number }
{
    match own_entry(entries, guest, number) {
        Some(entry) => is_lookup(&entry.call),
        None => false,
    }
}

/// An own lookup that wasn't closed before.
pub fn may_close(waits: &Waits, entries: &[Entry], guest: u64, tx: u64) -> bool
    requires legal { IsLegal entries.now }
    requires awaits { Awaits waits.now (newest_first entries.now) }
    ensures { result ≡ may_close (newest_first entries.now) guest tx }
{
    is_own_lookup(entries, guest, tx) && !is_closed(&waits.endings, tx)
}
