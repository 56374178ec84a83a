//! The turns of a guest, and what it notes of its answered calls.
ghost use Rattle.std.specs.Prelude.{◌≡◌, ◌+◌, ◌≤◌, true, List, Some, Ok, IfOk, OnOk, vec_len, vec_capacity};
ghost use Rattle.cache_types.specs.declared.calls.CacheCall.TheVariants as cache;
ghost use Rattle.cache_types.specs.declared.outer.OuterCall.TheVariants as outer;
ghost use Rattle.player.specs.Plays.{Program, Answered, event_with, is_end_call};
ghost use Rattle.guest_run.specs.Lives.{IsHearing};
ghost use Rattle.guest_run.specs.Guests.{call_of, call_of_pause, waits_in, needs_pause, InMachine, GuestPlays, IsNoted, IsHeard, IsStopped, IsSame, ComesIn, ComesTo, Offers, starved, IsAdvanced, Tells};

use crate::beginning::go_begun;
use crate::guest::Guest;
use crate::life::{Left, Pause, hear_on};
use crate::phase::{Phase, set};
use cache_types::{CacheCall, Copied, Event, Outcome, OuterCall, OuterReply};
use guest_calls::{Call, GuestTables, Under};
use module_machine::Machine;
use player::Turn;
use std::alloc::{AllocError, Global};

fn event_of(call: OuterCall, reply: OuterReply) -> Event
    ensures { result ≡ event_with call reply }
{
    match reply {
        OuterReply::Cache(stepped) => Event::Entry(stepped.number),
        reply => Event::Outer { call, reply },
    }
}

/// Notes an event, for which room was kept.
fn note(events: &mut Vec<Event>, call: OuterCall, reply: OuterReply)
    ensures { IsNoted events.old call reply events.new }
{
    let event = event_of(call, reply);
    if events.len() < events.capacity() {
        events.push_reserved(event);
    }
}

/// The phase behind the reply to its call.
pub fn heard(phase: Phase, events: &mut Vec<Event>, reply: OuterReply) -> Phase
    ensures { IsHeard phase reply events.old result events.new }
{
    match phase {
        Phase::New => {
            note(events, OuterCall::Cache(CacheCall::Begin), reply);
            Phase::Begun
        }
        Phase::Alive(Pause::Waiting { left, call, under }) => Phase::Heard {
            left,
            call,
            under,
            reply,
        },
        Phase::Alive(Pause::Ending { outcome }) => {
            note(events, OuterCall::Cache(CacheCall::End), reply);
            Phase::Over(outcome)
        }
        Phase::Stopping(outcome) => {
            note(events, OuterCall::Cache(CacheCall::End), reply);
            Phase::Over(outcome)
        }
        phase => phase,
    }
}

/// The phase of a guest that is stopped.
pub fn stopped(phase: Phase, events: &mut Vec<Event>, outcome: Outcome) -> Phase
    ensures { IsStopped phase outcome events.old result events.new }
{
    match phase {
        Phase::New => Phase::Over(outcome),
        Phase::Begun => Phase::Stopping(outcome),
        Phase::Alive(_) => Phase::Stopping(outcome),
        Phase::Heard { call, reply, .. } => {
            note(events, call, reply);
            Phase::Stopping(outcome)
        }
        Phase::Stopping(_) => Phase::Stopping(outcome),
        Phase::Over(_) => Phase::Over(outcome),
    }
}

fn is_end_of(phase: &Phase) -> bool
    ensures { result ≡ is_end_call (call_of phase.now) }
{
    match phase {
        Phase::Alive(Pause::Ending { .. }) => true,
        Phase::Alive(Pause::Waiting { call, .. }) => {
            matches!(call, OuterCall::Cache(CacheCall::End))
        }
        Phase::Stopping(_) => true,
        _ => false,
    }
}

/// The call that waits is End.
pub fn makes_end(given: bool, phase: &Phase) -> bool
    ensures { result ≡ is_end_call (waits_in given phase.now) }
{
    given && is_end_of(phase)
}

/// The call of a pause, with room for its event and for that of End. End takes no memory.
fn offered(alloc: Global, pause: &Pause, events: &mut Vec<Event>) -> Result<OuterCall, AllocError>
    ensures call { IfOk result (λ call. call ≡ call_of_pause pause.now) }
    ensures room { vec_len events.old + 1 ≤ vec_capacity events.old → OnOk result (vec_len events.new + needs_pause true pause.now ≤ vec_capacity events.new) }
    ensures same { events.new.items ≡ events.old.items }
    ensures len { vec_len events.new ≡ vec_len events.old }
    ensures capacity { vec_capacity events.old ≤ vec_capacity events.new }
{
    match pause {
        Pause::Waiting { call, .. } => {
            events.reserve(2)?;
            call.copy(alloc)
        }
        Pause::Ending { .. } => Ok(OuterCall::Cache(CacheCall::End)),
    }
}

/// Want of memory stops a guest that began.
fn starved(guest: &mut Guest) -> Turn
    ensures turn { result ≡ Turn.Outer (outer.Cache cache.End) }
    ensures guest { guest.new ≡ starved guest.old }
{
    guest.given = true;
    guest.stopped = Some(Outcome::OutOfMemory);
    set(&mut guest.phase, Phase::Stopping(Outcome::OutOfMemory));
    Turn::Outer(OuterCall::Cache(CacheCall::End))
}

/// The turn of a guest whose program is to make a call.
fn offer_pause(guest: &mut Guest, pause: Pause) -> Turn
    ensures tells { Tells guest.old guest.new result }
    ensures advanced { (next : Program) (trace : List Answered) → Offers guest.old (Ok pause) next trace → IsAdvanced guest.old.stopped guest.new result next trace }
{
    match offered(guest.alloc, &pause, &mut guest.events) {
        Ok(call) => {
            guest.given = true;
            set(&mut guest.phase, Phase::Alive(pause));
            Turn::Outer(call)
        }
        Err(_) => starved(guest),
    }
}

/// The turn of a guest whose program came to this.
fn offer(guest: &mut Guest, pause: Result<Pause, AllocError>) -> Turn
    ensures tells { Tells guest.old guest.new result }
    ensures advanced { (next : Program) (trace : List Answered) → Offers guest.old pause next trace → IsAdvanced guest.old.stopped guest.new result next trace }
{
    match pause {
        Ok(pause) => offer_pause(guest, pause),
        Err(_) => starved(guest),
    }
}

/// Goes on with a row that heard its reply, in the machine of the guest.
fn hear_in(
    alloc: Global,
    calls: &[Call],
    machine: &mut Option<Machine>,
    tables: &mut GuestTables,
    left: Left,
    under: Under,
    reply: &OuterReply,
) -> Result<Pause, AllocError>
    ensures { (meaning : Program) → InMachine machine.old (λ m. IsHearing calls.now meaning left under reply.now m tables.old) → ComesIn calls.now result machine.new tables.new meaning }
{
    match machine {
        Some(machine) => hear_on(alloc, calls, machine, tables, left, under, reply),
        None => Err(AllocError),
    }
}

/// The same of a guest; the event is noted, whatever follows.
fn go_heard(
    guest: &mut Guest,
    left: Left,
    call: OuterCall,
    under: Under,
    reply: OuterReply,
) -> Result<Pause, AllocError>
    ensures comes_to { (meaning : Program) → InMachine guest.old.machine (λ m. IsHearing guest.old.service.now.calls.items meaning left under reply m guest.old.tables) → ComesTo guest.new result meaning }
    ensures noted { IsNoted guest.old.events call reply guest.new.events }
    ensures same { IsSame guest.old guest.new }
{
    let pause = hear_in(
        guest.alloc,
        guest.service.calls.as_slice(),
        &mut guest.machine,
        &mut guest.tables,
        left,
        under,
        &reply,
    );
    note(&mut guest.events, call, reply);
    pause
}

/// A guest that begins: room for its Begin and its End.
fn advance_new(guest: &mut Guest) -> Turn
    ensures tells { Tells guest.old guest.new result }
    ensures advanced { (next : Program) (trace : List Answered) → GuestPlays (record guest.old { phase = Phase.New }) next trace → IsAdvanced guest.old.stopped guest.new result next trace }
{
    match guest.events.reserve(2) {
        Ok(()) => {
            guest.given = true;
            set(&mut guest.phase, Phase::New);
            Turn::Outer(OuterCall::Cache(CacheCall::Begin))
        }
        Err(_) => {
            guest.given = true;
            guest.stopped = Some(Outcome::OutOfMemory);
            set(&mut guest.phase, Phase::Over(Outcome::OutOfMemory));
            Turn::Over(Outcome::OutOfMemory)
        }
    }
}

/// A guest whose Begin was answered.
fn advance_begun(guest: &mut Guest) -> Turn
    ensures tells { Tells guest.old guest.new result }
    ensures advanced { (next : Program) (trace : List Answered) → GuestPlays (record guest.old { phase = Phase.Begun }) next trace → IsAdvanced guest.old.stopped guest.new result next trace }
{
    let pause = go_begun(guest);
    offer(guest, pause)
}

/// A guest whose program is to make a call.
fn advance_alive(guest: &mut Guest, pause: Pause) -> Turn
    ensures tells { Tells guest.old guest.new result }
    ensures advanced { (next : Program) (trace : List Answered) → GuestPlays (record guest.old { phase = Phase.Alive pause }) next trace → IsAdvanced guest.old.stopped guest.new result next trace }
{
    offer_pause(guest, pause)
}

/// A guest whose row heard its reply.
fn advance_heard(
    guest: &mut Guest,
    left: Left,
    call: OuterCall,
    under: Under,
    reply: OuterReply,
) -> Turn
    ensures tells { Tells guest.old guest.new result }
    ensures advanced { (next : Program) (trace : List Answered) → GuestPlays (record guest.old { phase = Phase.Heard left call under reply }) next trace → IsAdvanced guest.old.stopped guest.new result next trace }
{
    let pause = go_heard(guest, left, call, under, reply);
    offer(guest, pause)
}

/// A guest that was stopped after its Begin.
fn advance_stopping(guest: &mut Guest, outcome: Outcome) -> Turn
    ensures tells { Tells guest.old guest.new result }
    ensures advanced { (next : Program) (trace : List Answered) → GuestPlays (record guest.old { phase = Phase.Stopping outcome }) next trace → IsAdvanced guest.old.stopped guest.new result next trace }
{
    guest.given = true;
    set(&mut guest.phase, Phase::Stopping(outcome));
    Turn::Outer(OuterCall::Cache(CacheCall::End))
}

/// A guest that is over.
fn advance_over(guest: &mut Guest, outcome: Outcome) -> Turn
    ensures tells { Tells guest.old guest.new result }
    ensures advanced { (next : Program) (trace : List Answered) → GuestPlays (record guest.old { phase = Phase.Over outcome }) next trace → IsAdvanced guest.old.stopped guest.new result next trace }
{
    guest.given = true;
    set(&mut guest.phase, Phase::Over(outcome));
    Turn::Over(outcome)
}

/// A turn of a guest, by its phase.
pub fn advanced(guest: &mut Guest) -> Turn
    ensures tells { Tells guest.old guest.new result }
    ensures advanced { (next : Program) (trace : List Answered) → GuestPlays guest.old next trace → IsAdvanced guest.old.stopped guest.new result next trace }
{
    match std::mem::replace(&mut guest.phase, Phase::New) {
        Phase::New => advance_new(guest),
        Phase::Begun => advance_begun(guest),
        Phase::Alive(pause) => advance_alive(guest, pause),
        Phase::Heard {
            left,
            call,
            under,
            reply,
        } => advance_heard(guest, left, call, under, reply),
        Phase::Stopping(outcome) => advance_stopping(guest, outcome),
        Phase::Over(outcome) => advance_over(guest, outcome),
    }
}
