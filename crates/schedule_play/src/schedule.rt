//! A schedule: all steps, and then the close.

ghost use Rattle.std.specs.Prelude.{◌≡◌, ◌-◌, ◌<◌, ◌≤◌, ◌+◌, List, [], true, false, length, map, drop, IsTrue, IfOk, OnOk};
ghost use Rattle.cache_types.specs.Entries.{newest_first};
ghost use Rattle.cache_types.specs.Legal.{IsLegal};
ghost use Rattle.edge_outside.specs.Made.{Made};
ghost use Rattle.player.specs.Plays.{Program};
ghost use Rattle.schedule_play.specs.Links.{LinkCall, Asks, answers_in};
ghost use Rattle.schedule_play.specs.Schedule.{Seat, closed_turn, are_steps_of};
ghost use Rattle.schedule_play.specs.Blocks.{HasBlocks, keep_limits};
ghost use Rattle.schedule_play.specs.Scheduled.{IsScheduled};
ghost use Rattle.schedule_play.specs.Sits.{MaySit, IsSeated, IsAtPlay, IsStepped, AreStepped, IsClosed, ClosesAt, AreClosed, MayTell, IsTold, AllMayTell, AreTold, AreNew, new_places};

use crate::place::Place;
use crate::turns::{stop, turn};
use cache_types::{Done, OneCache, Outcome};
use edge_outside::Link;
use player::{Player, Turn};
use script_lines::Step;
use std::alloc::{AllocError, Global};

/// One step of the schedule.
fn take_step<S: OneCache, P: Player, L: Link>(
    alloc: Global,
    cache: &mut S,
    players: &mut [P],
    places: &mut Vec<Place>,
    link: &mut L,
    step: Step,
)
    requires world { (seats : List Seat) × IsAtPlay P.Plays P.stopped P.ended (L.is_open link.old) (newest_first (S.history cache.old)) players.old places.old.items seats }
    requires player { step.player - 1 < length players.old }
    requires places { length places.old.items ≡ length players.old }
    ensures step { (calls : List LinkCall) × Made (Asks L.starts L.polls L.waits L.chooses) link.old calls link.new
        × ((seats : List Seat) → IsAtPlay P.Plays P.stopped P.ended (L.is_open link.old) (newest_first (S.history cache.old)) players.old places.old.items seats
        → IsStepped P.Plays P.stopped P.ended P.MayWant (L.is_open link.new) (S.most cache.old) step (answers_in calls) (newest_first (S.history cache.old)) seats (newest_first (S.history cache.new)) players.new places.new.items) }
    ensures most { S.most cache.new ≡ S.most cache.old }
    ensures same_players { length players.new ≡ length players.old }
    ensures same_places { length places.new.items ≡ length places.old.items }
{
    let at = (step.player as usize).saturating_sub(1);
    let player = &mut players[at];
    let place = &mut places[at];
    turn(alloc, cache, player, place, link, step.reading);
}

/// The steps of the schedule in their order.
fn take_steps<S: OneCache, P: Player, L: Link>(
    alloc: Global,
    cache: &mut S,
    players: &mut [P],
    places: &mut Vec<Place>,
    link: &mut L,
    steps: &[Step],
)
    requires world { (seats : List Seat) × IsAtPlay P.Plays P.stopped P.ended (L.is_open link.old) (newest_first (S.history cache.old)) players.old places.old.items seats }
    requires steps { IsTrue (are_steps_of (length players.old) steps.now) }
    requires places { length places.old.items ≡ length players.old }
    ensures steps { (calls : List LinkCall) × Made (Asks L.starts L.polls L.waits L.chooses) link.old calls link.new
        × ((seats : List Seat) → IsAtPlay P.Plays P.stopped P.ended (L.is_open link.old) (newest_first (S.history cache.old)) players.old places.old.items seats
        → AreStepped P.Plays P.stopped P.ended P.MayWant (L.is_open link.new) (S.most cache.old) steps.now (answers_in calls) (newest_first (S.history cache.old)) seats (newest_first (S.history cache.new)) players.new places.new.items) }
    ensures same_players { length players.new ≡ length players.old }
    ensures same_places { length places.new.items ≡ length places.old.items }
{
    for step in steps {
        take_step(alloc, cache, players, places, link, *step);
    }
}

/// A guest that isn't over after the last step is stopped as unscheduled.
fn close_one<S: OneCache, P: Player>(cache: &mut S, player: &mut P, place: &mut Place)
    requires { (seat : Seat) × MaySit P.Plays P.stopped P.ended (newest_first (S.history cache.old)) player.old place.old seat }
    ensures { (seat : Seat) → MaySit P.Plays P.stopped P.ended (newest_first (S.history cache.old)) player.old place.old seat → IsClosed P.Plays P.stopped P.ended (newest_first (S.history cache.new)) player.new place.new (closed_turn (newest_first (S.history cache.old)) seat) }
{
    if place.over {
        return;
    }
    stop(cache, player, place, 0, Outcome::Unscheduled);
}

/// The same of the guest at a place.
fn close_at<S: OneCache, P: Player>(
    cache: &mut S,
    players: &mut [P],
    places: &mut Vec<Place>,
    at: usize,
)
    requires world { (seats : List Seat) × IsSeated P.Plays P.stopped P.ended (newest_first (S.history cache.old)) players.old places.old.items seats }
    requires at { at < length players.old }
    requires places { length places.old.items ≡ length players.old }
    ensures closes { (seats : List Seat) → IsSeated P.Plays P.stopped P.ended (newest_first (S.history cache.old)) players.old places.old.items seats → ClosesAt P.Plays P.stopped P.ended at (newest_first (S.history cache.old)) seats (newest_first (S.history cache.new)) players.new places.new.items }
    ensures same_players { length players.new ≡ length players.old }
    ensures same_places { length places.new.items ≡ length places.old.items }
{
    let player = &mut players[at];
    let place = &mut places[at];
    close_one(cache, player, place);
}

/// Closes all guests that aren't over, in their order.
fn close<S: OneCache, P: Player>(cache: &mut S, players: &mut [P], places: &mut Vec<Place>)
    requires world { (seats : List Seat) × IsSeated P.Plays P.stopped P.ended (newest_first (S.history cache.old)) players.old places.old.items seats }
    requires places { length places.old.items ≡ length players.old }
    ensures closed { (seats : List Seat) → IsSeated P.Plays P.stopped P.ended (newest_first (S.history cache.old)) players.old places.old.items seats → AreClosed P.Plays P.stopped P.ended (newest_first (S.history cache.old)) seats (newest_first (S.history cache.new)) players.new places.new.items }
    ensures same_players { length players.new ≡ length players.old }
    ensures same_places { length places.new.items ≡ length places.old.items }
{
    for i in 0..players.len() {
        close_at(cache, players, places, i);
    }
}

/// The block of a guest that is over.
fn block_of<P: Player>(index: u64, player: &mut P, place: Place) -> Done
    requires { (seat : Seat) × MayTell P.Plays P.stopped P.ended player.old place seat }
    ensures { (seat : Seat) → MayTell P.Plays P.stopped P.ended player.old place seat → IsTold index seat result }
{
    match player.advance() {
        Turn::Over(outcome) => Done {
            index,
            guest: place.guest,
            trace: player.take_trace(),
            outcome,
        },
        Turn::Outer(_call) => unreachable!(),
    }
}

/// The blocks of all guests, with indexes from 1.
fn blocks_of<P: Player>(
    alloc: Global,
    players: &mut [P],
    places: &[Place],
) -> Result<Vec<Done>, AllocError>
    requires seats { (seats : List Seat) × AllMayTell P.Plays P.stopped P.ended players.old places.now seats }
    requires places { length places.now ≡ length players.old }
    ensures { (seats : List Seat) → AllMayTell P.Plays P.stopped P.ended players.old places.now seats → IfOk result (λ blocks. AreTold seats blocks.items) }
{
    let mut blocks = Vec::new(alloc);
    for i in 0..players.len() {
        let player = &mut players[i];
        blocks.push(block_of(i as u64 + 1, player, places[i]))?;
    }
    Ok(blocks)
}

/// Places before the first step.
fn new_places(alloc: Global, count: usize) -> Result<Vec<Place>, AllocError>
    ensures { IfOk result (λ places. places.items ≡ new_places count) }
{
    let mut places = Vec::new(alloc);
    for i in 0..count {
        let _ = i;
        places.push(Place {
            guest: 0,
            over: false,
        })?;
    }
    Ok(places)
}

/// Plays new players by a schedule over an empty cache, and gives the block of each, in order. Want of memory in the cache,
/// at the link or in a player stops that player; anywhere else it ends the whole play.
pub fn play<S: OneCache, P: Player, L: Link>(
    alloc: Global,
    cache: &mut S,
    players: &mut [P],
    steps: &[Step],
    link: &mut L,
) -> Result<Vec<Done>, AllocError>
    requires empty { S.history cache.old ≡ [] }
    requires players { (programs : List Program) × AreNew P.Plays P.stopped P.ended players.old programs }
    requires steps { IsTrue (are_steps_of (length players.old) steps.now) }
    ensures schedule { (programs : List Program) → AreNew P.Plays P.stopped P.ended players.old programs → IfOk result (λ blocks. IsScheduled (Asks L.starts L.polls L.waits L.chooses) P.MayWant (S.most cache.old) programs steps.now link.old link.new (S.history cache.new) blocks.items) }
    ensures blocks { (programs : List Program) → AreNew P.Plays P.stopped P.ended players.old programs → IfOk result (λ blocks. HasBlocks (S.history cache.new) programs blocks.items) }
    ensures legal { OnOk result (IsLegal (S.history cache.new)) }
    ensures limits { OnOk result (IsTrue (keep_limits (S.history cache.new))) }
{
    let mut places = new_places(alloc, players.len())?;
    take_steps(alloc, cache, players, &mut places, link, steps);
    close(cache, players, &mut places);
    blocks_of(alloc, players, places.as_slice())
}
