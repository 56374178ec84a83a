//! The next entry, call by call: the parts are told.

ghost use Rattle.std.specs.Prelude.{◌≡◌, ◌∷◌, List, false, OnOk, OnErr};
ghost use Rattle.cache_types.specs.declared.entries.Entry.{Entry};
ghost use Rattle.cache_types.specs.Entries.{newest_first, is_begin, is_end};
ghost use Rattle.cache_types.specs.Legal.{IsLegalPast};
ghost use Rattle.cache_types.specs.Objects.{insertion_for, renewal_for};
ghost use Rattle.cache_core.specs.Knows.{Knows};
ghost use Rattle.cache_core.specs.News.{Made, news_of};

use crate::beginning::tell_begin;
use crate::changing::{tell_finished, tell_given_up, tell_piece, tell_renewed};
use crate::looking::{asked_at, hit_at};
use crate::making::tell_made;
use crate::parts::Parts;
use crate::purging::tell_purged;
use crate::slots::slot_for;
use cache_log::{is_done, is_made, is_short};
use cache_types::{CacheCall, Entry, Fields, Octets, Terms, Writing};
use std::alloc::{AllocError, Global};

/// The entry inserts an object with this key and these headers.
fn tell_insertion(
    parts: &mut Parts,
    alloc: Global,
    entry: &Entry,
    key: &Octets,
    headers: &Fields,
    writing: &Writing,
) -> Result<(), AllocError>
    ensures told { OnOk result ((past : List Entry) → IsLegalPast (entry.now ∷ past) → is_begin entry.now.call ≡ false → is_end entry.now.call ≡ false → news_of past entry.now ≡ Made (insertion_for entry.now writing.now (record { key = key.now; headers = headers.now })) (renewal_for entry.now writing.now.terms entry.now.number) → Knows parts.old past → Knows parts.new (entry.now ∷ past)) }
    ensures kept { OnErr result ((past : List Entry) → IsLegalPast (entry.now ∷ past) → Knows parts.old past → Knows parts.new past) }
{
    let slot = slot_for(alloc, key, &writing.rule, headers)?;
    tell_made(
        parts,
        alloc,
        entry.number,
        entry.guest,
        slot,
        writing.length,
        writing.terms.surrogates.items(),
    )
}

/// The entry inserts by a transaction.
fn tell_tx_insert(
    parts: &mut Parts,
    alloc: Global,
    entries: &[Entry],
    entry: &Entry,
    tx: u64,
    writing: &Writing,
) -> Result<(), AllocError>
    requires legal { IsLegalPast (entry.now ∷ newest_first entries.now) }
    requires is { entry.now.call ≡ CacheCall.TxInsert tx writing.now }
    requires knows { Knows parts.old (newest_first entries.now) }
    ensures told { OnOk result (Knows parts.new (entry.now ∷ newest_first entries.now)) }
    ensures kept { OnErr result (Knows parts.new (newest_first entries.now)) }
{
    if !is_made(&entry.reply) {
        return Ok(());
    }
    match asked_at(entries, tx) {
        Some(asked) => tell_insertion(parts, alloc, entry, asked.key, asked.headers, writing),
        None => Ok(()),
    }
}

/// The entry updates by a transaction.
fn tell_tx_update(
    parts: &mut Parts,
    alloc: Global,
    entries: &[Entry],
    entry: &Entry,
    tx: u64,
    terms: &Terms,
) -> Result<(), AllocError>
    requires legal { IsLegalPast (entry.now ∷ newest_first entries.now) }
    requires is { entry.now.call ≡ CacheCall.TxUpdate tx terms.now }
    requires knows { Knows parts.old (newest_first entries.now) }
    ensures told { OnOk result (Knows parts.new (entry.now ∷ newest_first entries.now)) }
    ensures kept { OnErr result (Knows parts.new (newest_first entries.now)) }
{
    if !is_done(&entry.reply) {
        return Ok(());
    }
    match hit_at(entries, tx) {
        Some(object) => tell_renewed(parts, alloc, object, terms.surrogates.items(), entry.number),
        None => Ok(()),
    }
}

/// The entry finishes an object, or falls short of its length.
fn tell_finish(parts: &mut Parts, entry: &Entry, object: u64)
    ensures { (past : List Entry) → IsLegalPast (entry.now ∷ past) → entry.now.call ≡ CacheCall.Finish object → Knows parts.old past → Knows parts.new (entry.now ∷ past) }
{
    if is_done(&entry.reply) {
        tell_finished(parts, object);
    } else if is_short(&entry.reply) {
        tell_given_up(parts, object);
    }
}

/// The next entry, which is no End.
pub fn tell(
    parts: &mut Parts,
    alloc: Global,
    entries: &[Entry],
    entry: &Entry,
) -> Result<(), AllocError>
    requires legal { IsLegalPast (entry.now ∷ newest_first entries.now) }
    requires no_end { is_end entry.now.call ≡ false }
    requires knows { Knows parts.old (newest_first entries.now) }
    ensures told { OnOk result (Knows parts.new (entry.now ∷ newest_first entries.now)) }
    ensures kept { OnErr result (Knows parts.new (newest_first entries.now)) }
{
    match &entry.call {
        CacheCall::Begin => tell_begin(parts, alloc, entry.number),
        CacheCall::Insert {
            key,
            headers,
            writing,
        } => {
            if is_made(&entry.reply) {
                tell_insertion(parts, alloc, entry, key, headers, writing)
            } else {
                Ok(())
            }
        }
        CacheCall::TxInsert { tx, writing } => {
            tell_tx_insert(parts, alloc, entries, entry, *tx, writing)
        }
        CacheCall::TxUpdate { tx, terms } => {
            tell_tx_update(parts, alloc, entries, entry, *tx, terms)
        }
        CacheCall::Write { object, piece } => {
            if is_done(&entry.reply) {
                tell_piece(parts, alloc, *object, piece)
            } else {
                Ok(())
            }
        }
        CacheCall::Finish { object } => {
            tell_finish(parts, entry, *object);
            Ok(())
        }
        CacheCall::Abandon { object } => {
            if is_done(&entry.reply) {
                tell_given_up(parts, *object);
            }
            Ok(())
        }
        CacheCall::Purge { key, soft } => tell_purged(parts, alloc, entries, key, *soft),
        _ => Ok(()),
    }
}
