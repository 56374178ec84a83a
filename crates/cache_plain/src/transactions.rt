//! Open transactions, and which goals they hold.

ghost use Rattle.std.specs.Prelude.{◌≡◌, IfOk, []};
ghost use Rattle.std.specs.List.{cons_option};
ghost use Rattle.cache_types.specs.Entries.{newest_first};
ghost use Rattle.cache_types.specs.Transactions.{slot_for_new, goal_of, transaction_of, ends_by, is_end_of, ends, is_over, open_among, is_goal, is_own, is_held, is_own_open};

use crate::found::{found, rules_of};
use crate::slots::{Slot, is_same_slot, slot_for, slot_of};
use cache_log::{is_done, is_made, is_told_to_insert};
use cache_types::{CacheCall, Entry, Fields, Octets, Rule};
use std::alloc::{AllocError, Global};

/// The slot that a new object with the key's newest rule would have.
fn slot_for_new<'a>(
    alloc: Global,
    entries: &[Entry],
    key: &'a Octets,
    headers: &Fields,
) -> Result<Slot<'a>, AllocError>
    ensures { IfOk result (λ slot. slot ≡ slot_for_new (newest_first entries.now) key.now headers.now) }
{
    match rules_of(alloc, entries, key)?.first() {
        Some(seen) => slot_for(alloc, key, seen.rule, headers),
        None => slot_for(alloc, key, &Rule::empty(alloc), headers),
    }
}

/// What a transactional lookup is to renew: the slot of what it finds, else that of a new object.
pub fn goal_of<'a>(
    alloc: Global,
    entries: &'a [Entry],
    key: &'a Octets,
    headers: &Fields,
) -> Result<Slot<'a>, AllocError>
    ensures { IfOk result (λ slot. slot ≡ goal_of (newest_first entries.now) key.now headers.now) }
{
    match found(alloc, entries, key, headers)? {
        Some(made) => slot_of(alloc, &made),
        None => slot_for_new(alloc, entries, key, headers),
    }
}

/// The call names the transaction, and succeeded.
fn ends_by(entry: &Entry, number: u64) -> bool
    ensures { result ≡ ends_by entry.now number entry.now.call }
{
    match &entry.call {
        CacheCall::TxInsert { tx, .. } => *tx == number && is_made(&entry.reply),
        CacheCall::TxUpdate { tx, .. } => *tx == number && is_done(&entry.reply),
        CacheCall::TxCancel { tx } => *tx == number && is_done(&entry.reply),
        CacheCall::Close { tx } => *tx == number && is_done(&entry.reply),
        _ => false,
    }
}

fn is_end_of(guest: u64, entry: &Entry) -> bool
    ensures { result ≡ is_end_of guest entry.now entry.now.call }
{
    match &entry.call {
        CacheCall::End => entry.guest == guest,
        _ => false,
    }
}

/// An entry has ended the transaction of this number and guest.
fn is_over(entries: &[Entry], number: u64, guest: u64) -> bool
    ensures { result ≡ is_over (newest_first entries.now) number guest }
{
    entries
        .iter()
        .rev()
        .any(|entry| ends_by(entry, number) || is_end_of(guest, entry))
}

/// The entry began a transaction that is open and has the slot as its goal.
fn holds(
    alloc: Global,
    entries: &[Entry],
    before: &[Entry],
    entry: &Entry,
    slot: &Slot<'_>,
) -> Result<bool, AllocError>
    ensures { IfOk result (λ holds. holds ≡ is_goal slot.now (open_among (newest_first entries.now) (cons_option (transaction_of (newest_first before.now) entry.now) []))) }
{
    match &entry.call {
        CacheCall::TxLookup { key, headers } => {
            if is_told_to_insert(&entry.reply) && !is_over(entries, entry.number, entry.guest) {
                let goal = goal_of(alloc, before, key, headers)?;
                Ok(is_same_slot(&goal, slot))
            } else {
                Ok(false)
            }
        }
        _ => Ok(false),
    }
}

/// The slot is the goal of an open transaction.
#[tactic(auto, using(crate::proofs::Walks::walks, crate::proofs::Opening::one_by_one))]
pub fn is_held(alloc: Global, entries: &[Entry], slot: &Slot<'_>) -> Result<bool, AllocError>
    ensures { IfOk result (λ held. held ≡ is_held (newest_first entries.now) slot.now) }
{
    let mut held = false;
    for i in 0..entries.len() {
        if holds(alloc, entries, &entries[..i], &entries[i], slot)? {
            held = true;
        }
    }
    Ok(held)
}

/// The entry began a transaction that is open, has this number and is the guest's.
fn is_own(entries: &[Entry], before: &[Entry], entry: &Entry, guest: u64, tx: u64) -> bool
    ensures { result ≡ is_own guest tx (open_among (newest_first entries.now) (cons_option (transaction_of (newest_first before.now) entry.now) [])) }
{
    match &entry.call {
        CacheCall::TxLookup { .. } => {
            entry.number == tx
                && entry.guest == guest
                && is_told_to_insert(&entry.reply)
                && !is_over(entries, tx, guest)
        }
        _ => false,
    }
}

/// The guest's own transaction of this number is open.
#[tactic(auto, using(crate::proofs::Walks::walks, crate::proofs::Opening::one_by_one))]
pub fn is_own_open(entries: &[Entry], guest: u64, tx: u64) -> bool
    ensures { result ≡ is_own_open (newest_first entries.now) guest tx }
{
    let mut own = false;
    for i in 0..entries.len() {
        if is_own(entries, &entries[..i], &entries[i], guest, tx) {
            own = true;
        }
    }
    own
}
