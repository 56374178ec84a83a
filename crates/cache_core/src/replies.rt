//! The one reply to a call, call by call.

ghost use Rattle.std.specs.Prelude.{◌≡◌, ◌∷◌, IfOk};
ghost use Rattle.cache_types.specs.Answer.{answer, made_if, done_if};
ghost use Rattle.cache_types.specs.Entries.{newest_first};
ghost use Rattle.cache_types.specs.Legal.{IsLegal};
ghost use Rattle.cache_types.specs.Step.{guest_of, reply_after};
ghost use Rattle.cache_core.specs.Knows.{Knows};
ghost use Rattle.cache_core.specs.Waits.{Awaits};

use crate::bodies::{finish, may_abandon, read, write};
use crate::hits::lookup;
use crate::parts::Parts;
use crate::transactions::{is_own_open, may_close, may_update};
use crate::tx_lookups::tx_lookup;
use crate::waits::Waits;
use cache_log::{is_begin, last_moment};
use cache_types::{CacheCall, Entry, Reply};
use std::alloc::{AllocError, Global};

fn made_if(good: bool) -> Reply
    ensures { result ≡ made_if good }
{
    if good { Reply::Made } else { Reply::Refused }
}

fn done_if(good: bool) -> Reply
    ensures { result ≡ done_if good }
{
    if good { Reply::Done } else { Reply::Refused }
}

/// The one reply to a guest's call at a moment.
fn answer(
    alloc: Global,
    parts: &Parts,
    waits: &Waits,
    entries: &[Entry],
    guest: u64,
    moment: u64,
    call: &CacheCall,
) -> Result<Reply, AllocError>
    requires legal { IsLegal entries.now }
    requires knows { Knows parts.now (newest_first entries.now) }
    requires awaits { Awaits waits.now (newest_first entries.now) }
    ensures { IfOk result (λ reply. reply ≡ answer (newest_first entries.now) guest moment call.now) }
{
    match call {
        CacheCall::Begin => Ok(Reply::Begun),
        CacheCall::Lookup { key, headers } => {
            lookup(alloc, parts, entries, moment, key, headers)
        }
        CacheCall::TxLookup { key, headers } => {
            tx_lookup(alloc, parts, waits, entries, moment, key, headers)
        }
        CacheCall::Insert { .. } => Ok(Reply::Made),
        CacheCall::TxInsert { tx, .. } => {
            Ok(made_if(is_own_open(parts, waits, entries, guest, *tx)))
        }
        CacheCall::TxUpdate { tx, .. } => {
            Ok(done_if(may_update(parts, waits, entries, guest, *tx)))
        }
        CacheCall::TxCancel { tx } => Ok(done_if(is_own_open(parts, waits, entries, guest, *tx))),
        CacheCall::Close { tx } => Ok(done_if(may_close(waits, entries, guest, *tx))),
        CacheCall::Write { object, piece } => write(parts, entries, guest, *object, piece),
        CacheCall::Finish { object } => finish(parts, entries, guest, *object),
        CacheCall::Abandon { object } => {
            Ok(done_if(may_abandon(parts, entries, guest, *object)?))
        }
        CacheCall::Read { hit, place, most } => {
            read(alloc, parts, entries, guest, *hit, *place, *most)
        }
        CacheCall::Purge { .. } => Ok(Reply::Done),
        CacheCall::End => Ok(Reply::Done),
    }
}

/// The guest of the call's entry: a Begin names a new one.
fn guest_of(entries: &[Entry], guest: u64, call: &CacheCall) -> u64
    ensures { result ≡ guest_of (newest_first entries.now) guest call.now }
{
    if is_begin(call) {
        entries.len() as u64 + 1
    } else {
        guest
    }
}

/// The reply to a guest's call at a reading.
pub fn reply_by(
    alloc: Global,
    parts: &Parts,
    waits: &Waits,
    entries: &[Entry],
    guest: u64,
    reading: u64,
    call: &CacheCall,
) -> Result<Reply, AllocError>
    requires legal { IsLegal entries.now }
    requires knows { Knows parts.now (newest_first entries.now) }
    requires awaits { Awaits waits.now (newest_first entries.now) }
    ensures { IfOk result (λ reply. reply ≡ reply_after (newest_first entries.now) guest reading call.now) }
{
    let guest = guest_of(entries, guest, call);
    let moment = last_moment(entries).max(reading);
    answer(alloc, parts, waits, entries, guest, moment, call)
}
