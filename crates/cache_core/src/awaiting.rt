//! The next entry: the parts and the waits are told.

ghost use Rattle.std.specs.Prelude.{◌≡◌, ◌∷◌, List, false, None, Some, OnOk, OnErr};
ghost use Rattle.cache_types.specs.declared.entries.Entry.{Entry};
ghost use Rattle.cache_types.specs.Entries.{newest_first, is_end};
ghost use Rattle.cache_types.specs.Legal.{IsLegalPast};
ghost use Rattle.cache_types.specs.Transactions.{transaction_of};
ghost use Rattle.cache_core.specs.Knows.{Knows};
ghost use Rattle.cache_core.specs.Waits.{Awaits, ended_by};

use crate::holding::goal_of;
use crate::parts::Parts;
use crate::telling::tell;
use crate::waits::{Ended, Waits, ended_by};
use cache_log::is_told_to_insert;
use cache_types::{CacheCall, Entry, Fields, Octets};
use cache_waiters::{Holder, make_room};
use std::alloc::{AllocError, Global};

/// The entry is a transactional lookup. It changes no part.
fn tell_lookup(
    parts: &Parts,
    waits: &mut Waits,
    alloc: Global,
    entry: &Entry,
    key: &Octets,
    headers: &Fields,
) -> Result<(), AllocError>
    ensures told { OnOk result ((past : List Entry) → entry.now.call ≡ CacheCall.TxLookup key.now headers.now → Knows parts.now past → Awaits waits.old past → Awaits waits.new (entry.now ∷ past)) }
    ensures kept { OnErr result ((past : List Entry) → Awaits waits.old past → Awaits waits.new past) }
{
    if !is_told_to_insert(&entry.reply) {
        return Ok(());
    }
    let goal = goal_of(alloc, parts, key, headers)?;
    let holder = Holder {
        number: entry.number,
        guest: entry.guest,
    };
    waits.goals.tell(goal, holder)
}

/// The entry ended a lookup by its call.
fn tell_ended(
    parts: &mut Parts,
    waits: &mut Waits,
    alloc: Global,
    entries: &[Entry],
    entry: &Entry,
    ended: Ended,
) -> Result<(), AllocError>
    requires legal { IsLegalPast (entry.now ∷ newest_first entries.now) }
    requires no_end { is_end entry.now.call ≡ false }
    requires is { ended_by entry.now ≡ Some ended }
    requires knows { Knows parts.old (newest_first entries.now) }
    requires awaits { Awaits waits.old (newest_first entries.now) }
    ensures told { OnOk result (Knows parts.new (entry.now ∷ newest_first entries.now)) }
    ensures waits { OnOk result (Awaits waits.new (entry.now ∷ newest_first entries.now)) }
    ensures kept { OnErr result (Knows parts.new (newest_first entries.now)) }
    ensures kept_waits { OnErr result (Awaits waits.new (newest_first entries.now)) }
{
    make_room(&mut waits.endings, ended.number)?;
    tell(parts, alloc, entries, entry)?;
    cache_waiters::tell(&mut waits.endings, ended.number, ended.closed);
    Ok(())
}

/// The entry opens no transaction.
fn tell_other(
    parts: &mut Parts,
    waits: &mut Waits,
    alloc: Global,
    entries: &[Entry],
    entry: &Entry,
) -> Result<(), AllocError>
    requires legal { IsLegalPast (entry.now ∷ newest_first entries.now) }
    requires no_end { is_end entry.now.call ≡ false }
    requires opens_none { transaction_of (newest_first entries.now) entry.now ≡ None }
    requires knows { Knows parts.old (newest_first entries.now) }
    requires awaits { Awaits waits.old (newest_first entries.now) }
    ensures told { OnOk result (Knows parts.new (entry.now ∷ newest_first entries.now)) }
    ensures waits { OnOk result (Awaits waits.new (entry.now ∷ newest_first entries.now)) }
    ensures kept { OnErr result (Knows parts.new (newest_first entries.now)) }
    ensures kept_waits { OnErr result (Awaits waits.new (newest_first entries.now)) }
{
    match ended_by(entry) {
        Some(ended) => tell_ended(parts, waits, alloc, entries, entry, ended),
        None => tell(parts, alloc, entries, entry),
    }
}

/// The next entry, which is no End.
pub fn tell_all(
    parts: &mut Parts,
    waits: &mut Waits,
    alloc: Global,
    entries: &[Entry],
    entry: &Entry,
) -> Result<(), AllocError>
    requires legal { IsLegalPast (entry.now ∷ newest_first entries.now) }
    requires no_end { is_end entry.now.call ≡ false }
    requires knows { Knows parts.old (newest_first entries.now) }
    requires awaits { Awaits waits.old (newest_first entries.now) }
    ensures told { OnOk result (Knows parts.new (entry.now ∷ newest_first entries.now)) }
    ensures waits { OnOk result (Awaits waits.new (entry.now ∷ newest_first entries.now)) }
    ensures kept { OnErr result (Knows parts.new (newest_first entries.now)) }
    ensures kept_waits { OnErr result (Awaits waits.new (newest_first entries.now)) }
{
    match &entry.call {
        CacheCall::TxLookup { key, headers } => {
            tell_lookup(parts, waits, alloc, entry, key, headers)
        }
        _ => tell_other(parts, waits, alloc, entries, entry),
    }
}
