//! The turns of a scripted guest, and what it notes of its answered calls.

ghost use Rattle.std.specs.Prelude.{◌≡◌, false, IfOk, OnOk, OnErr, IsTrue};
ghost use Rattle.cache_types.specs.declared.outer.Event.TheVariants as event;
ghost use Rattle.player.specs.May.{may_want};
ghost use Rattle.scripted_guest.specs.Script.{value_of, next_call, turn_of, is_asking, is_script};
ghost use Rattle.scripted_guest.specs.Scripted.{stopped_turn, HasRoom, IsSame, IsPushed};

use crate::script::{is_asking, is_end_at, next_call, value_of};
use cache_types::{CacheCall, Event, Outcome, OuterCall, Stepped};
use player::Turn;
use script_lines::Lines;
use std::alloc::{AllocError, Global};

/// Room for the event of a call and for that of End.
fn make_room(values: &mut Vec<u64>, events: &mut Vec<Event>) -> Result<(), AllocError>
    ensures room { OnOk result (HasRoom 2 values.new events.new) }
    ensures values { IsSame values.old values.new }
    ensures events { IsSame events.old events.new }
{
    values.reserve(2)?;
    events.reserve(2)
}

/// The turn of a guest that is to make its Begin or a line's call, with room for the event.
fn asking_turn(
    alloc: Global,
    lines: &Lines,
    values: &mut Vec<u64>,
    events: &mut Vec<Event>,
) -> Result<Turn, AllocError>
    ensures turn { IfOk result (λ turn. turn ≡ turn_of (next_call lines.now values.old.items)) }
    ensures room { OnOk result (HasRoom 2 values.new events.new) }
    ensures values { IsSame values.old values.new }
    ensures events { IsSame events.old events.new }
{
    make_room(values, events)?;
    match next_call(alloc, lines, values.as_slice())? {
        Some(call) => Ok(Turn::Outer(OuterCall::Cache(call))),
        None => Ok(Turn::Over(Outcome::Returned)),
    }
}

/// The turn of a guest whose lines are done.
fn last_turn(lines: &Lines, values: &[u64]) -> Turn
    requires { is_asking lines.now values.now ≡ false }
    ensures turn { result ≡ turn_of (next_call lines.now values.now) }
    ensures calm { may_want result ≡ false }
{
    if is_end_at(lines, values) {
        Turn::Outer(OuterCall::Cache(CacheCall::End))
    } else {
        Turn::Over(Outcome::Returned)
    }
}

/// The turn of a guest that wasn't stopped, with room for the event of its call. Its End takes no memory.
pub fn next_turn(
    alloc: Global,
    lines: &Lines,
    values: &mut Vec<u64>,
    events: &mut Vec<Event>,
) -> Result<Turn, AllocError>
    ensures turn { IfOk result (λ turn. turn ≡ turn_of (next_call lines.now values.old.items)) }
    ensures room { IfOk result (λ turn. IsTrue (may_want turn) → HasRoom 2 values.new events.new) }
    ensures wants { IsTrue (is_script lines.now) → OnErr result (IsTrue (may_want (turn_of (next_call lines.now values.old.items)))) }
    ensures values { IsSame values.old values.new }
    ensures events { IsSame events.old events.new }
{
    if is_asking(lines, values.as_slice()) {
        asking_turn(alloc, lines, values, events)
    } else {
        Ok(last_turn(lines, values.as_slice()))
    }
}

/// The turn of a guest that was stopped.
pub fn stopped_turn(values: &[u64], ended: bool, why: Outcome) -> Turn
    ensures { result ≡ stopped_turn values.now ended why }
{
    if values.is_empty() || ended {
        Turn::Over(why)
    } else {
        Turn::Outer(OuterCall::Cache(CacheCall::End))
    }
}

/// Notes what the cache told, for which room was kept.
pub fn note(values: &mut Vec<u64>, events: &mut Vec<Event>, told: &Stepped)
    ensures values { IsPushed values.old (value_of told.now.number told.now.reply) values.new }
    ensures events { IsPushed events.old (event.Entry told.now.number) events.new }
{
    if values.len() < values.capacity() {
        values.push_reserved(value_of(told.number, &told.reply));
    }
    if events.len() < events.capacity() {
        events.push_reserved(Event::Entry(told.number));
    }
}
