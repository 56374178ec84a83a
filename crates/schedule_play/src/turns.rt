//! One step of a guest: one try of its next call, and what follows from the answer.

ghost use Rattle.std.specs.Prelude.{◌≡◌, not, List, IsTrue, Some, None, false, true};
ghost use Rattle.cache_types.specs.declared.calls.CacheCall.{CacheCall};
ghost use Rattle.cache_types.specs.declared.outer.OuterCall.TheVariants as outer;
ghost use Rattle.cache_types.specs.declared.outer.OuterReply.TheVariants as said;
ghost use Rattle.cache_types.specs.Entries.{newest_first, is_begin, is_end, is_not_yet};
ghost use Rattle.cache_types.specs.Step.{MayCall};
ghost use Rattle.edge_outside.specs.Made.{Made};
ghost use Rattle.schedule_play.specs.Links.{LinkCall, Asks, answers_in};
ghost use Rattle.schedule_play.specs.Schedule.{Seat, named_by, noted, due_of, makes_end, stopped};
ghost use Rattle.schedule_play.specs.Sits.{Holds, IsStopping, IsStoppable, HasMoved, IsAsking, TryGives, IsTaking, TakeGives, TurnGives, MayPlay};

use crate::links::reply_to;
use crate::place::Place;
use cache_types::{CacheCall, OneCache, Outcome, OuterCall, OuterReply, Reply, StepFault, Stepped};
use edge_outside::Link;
use player::{Player, Turn};
use std::alloc::Global;

/// A guest that was stopped makes its End, where this is due.
fn make_end<S: OneCache, P: Player>(cache: &mut S, player: &mut P, guest: u64, reading: u64)
    requires { (seat : Seat) × IsStopping P.Plays P.stopped P.ended (newest_first (S.history cache.old)) player.old guest seat }
    ensures turn { (seat : Seat) → IsStopping P.Plays P.stopped P.ended (newest_first (S.history cache.old)) player.old guest seat → HasMoved P.Plays P.stopped P.ended player.new guest (newest_first (S.history cache.new)) (makes_end (newest_first (S.history cache.old)) seat reading (due_of seat)) }
    ensures most { S.most cache.new ≡ S.most cache.old }
{
    if player.advance().is_over() {
        return;
    }
    match cache.step(guest, reading, &CacheCall::End) {
        Ok(told) => player.answer(OuterReply::Cache(told)),
        Err(_) => unreachable!(),
    }
}

/// Stops a guest that isn't over.
pub fn stop<S: OneCache, P: Player>(
    cache: &mut S,
    player: &mut P,
    place: &mut Place,
    reading: u64,
    outcome: Outcome,
)
    requires { (seat : Seat) × IsStoppable P.Plays P.stopped P.ended (newest_first (S.history cache.old)) player.old place.old.guest seat }
    ensures turn { (seat : Seat) → IsStoppable P.Plays P.stopped P.ended (newest_first (S.history cache.old)) player.old place.old.guest seat → HasMoved P.Plays P.stopped P.ended player.new place.new.guest (newest_first (S.history cache.new)) (stopped (newest_first (S.history cache.old)) seat reading outcome) }
    ensures over { place.new.over ≡ true }
    ensures most { S.most cache.new ≡ S.most cache.old }
{
    player.stop(outcome);
    make_end(cache, player, place.guest, reading);
    place.over = true;
}

fn named_by(guest: u64, number: u64, call: &CacheCall) -> u64
    ensures { result ≡ named_by guest number call.now }
{
    if matches!(call, CacheCall::Begin) {
        number
    } else {
        guest
    }
}

fn is_end(call: &CacheCall) -> bool
    ensures { result ≡ is_end call.now }
{
    matches!(call, CacheCall::End)
}

fn is_not_yet(reply: &Reply) -> bool
    ensures { result ≡ is_not_yet reply.now }
{
    matches!(reply, Reply::NotYet)
}

/// The reply to a cache call: NotYet changes nothing, and every other one is told.
fn hear<P: Player>(player: &mut P, place: &mut Place, call: &CacheCall, told: Stepped)
    requires { P.waits player.old ≡ Some (outer.Cache call.now) }
    ensures not_yet { IsTrue (is_not_yet told.reply) → (player.new ≡ player.old) × (place.new ≡ place.old) }
    ensures heard { IsTrue (not (is_not_yet told.reply)) → (seat : Seat) → Holds P.Plays P.stopped P.ended player.old place.old.guest seat → Holds P.Plays P.stopped P.ended player.new place.new.guest (noted seat (named_by seat.guest told.number call.now) (outer.Cache call.now) (said.Cache told)) }
    ensures over { IsTrue (not (is_not_yet told.reply)) → place.new.over ≡ is_end call.now }
{
    if is_not_yet(&told.reply) {
        return;
    }
    place.guest = named_by(place.guest, told.number, call);
    place.over = is_end(call);
    player.answer(OuterReply::Cache(told));
}

/// One try of a cache call of a guest that goes on.
fn attempt<S: OneCache, P: Player>(
    cache: &mut S,
    player: &mut P,
    place: &mut Place,
    reading: u64,
    call: &CacheCall,
)
    requires may { MayCall (S.history cache.old) place.old.guest call.now }
    requires waits { P.waits player.old ≡ Some (outer.Cache call.now) }
    requires seat { (seat : Seat) × IsAsking P.Plays P.stopped P.ended (newest_first (S.history cache.old)) player.old place.old seat (outer.Cache call.now) }
    ensures turn { (seat : Seat) → IsAsking P.Plays P.stopped P.ended (newest_first (S.history cache.old)) player.old place.old seat (outer.Cache call.now) → TryGives P.Plays P.stopped P.ended (S.most cache.old) reading (newest_first (S.history cache.old)) seat call.now (newest_first (S.history cache.new)) player.new place.new }
    ensures most { S.most cache.new ≡ S.most cache.old }
{
    match cache.step(place.guest, reading, call) {
        Ok(told) => hear(player, place, call, told),
        Err(StepFault::Full) => stop(cache, player, place, reading, Outcome::HistoryFull),
        Err(StepFault::OutOfMemory) => stop(cache, player, place, reading, Outcome::OutOfMemory),
    }
}

/// One try of a call.
fn take<S: OneCache, P: Player, L: Link>(
    alloc: Global,
    cache: &mut S,
    player: &mut P,
    place: &mut Place,
    link: &mut L,
    reading: u64,
    call: &OuterCall,
)
    requires waits { P.waits player.old ≡ Some call.now }
    requires seat { (seat : Seat) × IsTaking P.Plays P.stopped P.ended (L.is_open link.old) (newest_first (S.history cache.old)) player.old place.old seat call.now }
    ensures turn { (calls : List LinkCall) × Made (Asks L.starts L.polls L.waits L.chooses) link.old calls link.new
        × ((seat : Seat) → IsTaking P.Plays P.stopped P.ended (L.is_open link.old) (newest_first (S.history cache.old)) player.old place.old seat call.now
        → TakeGives P.Plays P.stopped P.ended (L.is_open link.old) (L.is_open link.new) (S.most cache.old) reading (answers_in calls) (newest_first (S.history cache.old)) seat call.now (newest_first (S.history cache.new)) player.new place.new) }
    ensures most { S.most cache.new ≡ S.most cache.old }
{
    match call {
        OuterCall::Cache(call) => attempt(cache, player, place, reading, call),
        call => match reply_to(alloc, link, reading, call) {
            Some(reply) => player.answer(reply),
            None => stop(cache, player, place, reading, Outcome::OutOfMemory),
        },
    }
}

/// One step of a guest: one try of its next call, where it isn't over.
pub fn turn<S: OneCache, P: Player, L: Link>(
    alloc: Global,
    cache: &mut S,
    player: &mut P,
    place: &mut Place,
    link: &mut L,
    reading: u64,
)
    requires { (seat : Seat) × MayPlay P.Plays P.stopped P.ended (L.is_open link.old) (newest_first (S.history cache.old)) player.old place.old seat }
    ensures turn { (calls : List LinkCall) × Made (Asks L.starts L.polls L.waits L.chooses) link.old calls link.new
        × ((seat : Seat) → MayPlay P.Plays P.stopped P.ended (L.is_open link.old) (newest_first (S.history cache.old)) player.old place.old seat
        → TurnGives P.Plays P.stopped P.ended P.MayWant (L.is_open link.old) (L.is_open link.new) (S.most cache.old) reading (answers_in calls) (newest_first (S.history cache.old)) seat (newest_first (S.history cache.new)) player.new place.new) }
    ensures most { S.most cache.new ≡ S.most cache.old }
{
    if place.over {
        return;
    }
    match player.advance() {
        Turn::Outer(call) => take(alloc, cache, player, place, link, reading, &call),
        Turn::Over(_outcome) => place.over = true,
    }
}
