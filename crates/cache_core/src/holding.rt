//! The goal of a transactional lookup, and whether it is held.

ghost use Rattle.std.specs.Prelude.{◌≡◌, false, List, IfOk, [], ◌∷◌, option_map, reverse};
ghost use Rattle.cache_types.specs.declared.entries.Entry.{Entry};
ghost use Rattle.cache_types.specs.Found.{first_alive, found};
ghost use Rattle.cache_types.specs.Legal.{IsLegalPast};
ghost use Rattle.cache_types.specs.Objects.{slot_of};
ghost use Rattle.cache_types.specs.Slots.{slot_for};
ghost use Rattle.cache_types.specs.Transactions.{first_rule, goal_of, is_held};
ghost use Rattle.cache_core.specs.Knows.{Knows};
ghost use Rattle.cache_core.specs.Living.{slot_if};
ghost use Rattle.cache_core.specs.Waits.{Awaits, holds_by};

use crate::finding::living;
use crate::parts::Parts;
use crate::slots::slot_for;
use crate::transactions::is_standing;
use crate::waits::Waits;
use cache_objects::GuestMap;
use cache_slots::Slot;
use cache_types::{Fields, Octets, Rule};
use cache_waiters::{EndingMap, Holder};
use std::alloc::{AllocError, Global};

/// The slot, where an object is found in it.
fn slot_if(slot: Slot, object: Option<u64>) -> Option<Slot>
    ensures { result ≡ slot_if slot object }
{
    match object {
        Some(_) => Some(slot),
        None => None,
    }
}

/// The slot of these headers under the rule, where its newest object is alive.
fn alive_slot(
    alloc: Global,
    parts: &Parts,
    key: &Octets,
    rule: &Rule,
    headers: &Fields,
) -> Result<Option<Slot>, AllocError>
    ensures { IfOk result (λ found. (past : List Entry) → Knows parts.now past → found ≡ option_map slot_of (first_alive past key.now headers.now (rule.now ∷ []))) }
{
    let slot = slot_for(alloc, key, rule, headers)?;
    let object = living(&parts.objects, parts.index.object(&slot));
    Ok(slot_if(slot, object))
}

/// The slot of what a lookup with these headers finds.
#[tactic(auto, using(crate::proofs::GoalSlots::here_slot, crate::proofs::GoalSlots::none_slot))]
fn found_slot(
    alloc: Global,
    parts: &Parts,
    key: &Octets,
    headers: &Fields,
) -> Result<Option<Slot>, AllocError>
    ensures { IfOk result (λ slot. (past : List Entry) → Knows parts.now past → slot ≡ option_map slot_of (found past key.now headers.now)) }
{
    let rules = parts.index.rules(key);
    for i in 0..rules.len() {
        let slot = alive_slot(alloc, parts, key, &rules[rules.len() - 1 - i], headers)?;
        if slot.is_some() {
            return Ok(slot);
        }
    }
    Ok(None)
}

/// The slot that a new object would have under the newest of these rules, which stands last.
#[tactic(auto, using(crate::proofs::GoalSlots::newest_last))]
fn slot_for_new(
    alloc: Global,
    rules: &[Rule],
    key: &Octets,
    headers: &Fields,
) -> Result<Slot, AllocError>
    ensures { IfOk result (λ slot. slot ≡ slot_for key.now (first_rule (reverse rules.now)) headers.now) }
{
    if rules.len() == 0 {
        return slot_for(alloc, key, &Rule::empty(alloc), headers);
    }
    slot_for(alloc, key, &rules[rules.len() - 1], headers)
}

/// What a transactional lookup is to renew: the slot of what it finds, else that of a new object.
pub fn goal_of(
    alloc: Global,
    parts: &Parts,
    key: &Octets,
    headers: &Fields,
) -> Result<Slot, AllocError>
    ensures { IfOk result (λ goal. (past : List Entry) → Knows parts.now past → goal ≡ goal_of past key.now headers.now) }
{
    match found_slot(alloc, parts, key, headers)? {
        Some(slot) => Ok(slot),
        None => slot_for_new(alloc, parts.index.rules(key), key, headers),
    }
}

/// The newest transaction of a goal holds it.
fn holds(endings: &EndingMap, guests: &GuestMap, newest: Option<Holder>) -> bool
    ensures { result ≡ holds_by endings.now guests.now newest }
{
    match newest {
        Some(holder) => is_standing(endings, guests, holder.number, holder.guest),
        None => false,
    }
}

/// The slot is the goal of an open transaction.
fn is_held(parts: &Parts, waits: &Waits, goal: &Slot) -> bool
    ensures { (past : List Entry) → IsLegalPast past → Knows parts.now past → Awaits waits.now past → result ≡ is_held past goal.now }
{
    holds(&waits.endings, &parts.guests, waits.goals.newest(goal))
}

/// The goal of such a lookup is held, where it counts: what is fresh is told in either case.
pub fn is_goal_held(
    alloc: Global,
    parts: &Parts,
    waits: &Waits,
    fresh: bool,
    key: &Octets,
    headers: &Fields,
) -> Result<bool, AllocError>
    ensures { IfOk result (λ held. fresh ≡ false → (past : List Entry) → IsLegalPast past → Knows parts.now past → Awaits waits.now past → held ≡ is_held past (goal_of past key.now headers.now)) }
{
    if fresh {
        return Ok(false);
    }
    let goal = goal_of(alloc, parts, key, headers)?;
    Ok(is_held(parts, waits, &goal))
}
