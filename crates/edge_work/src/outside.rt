//! One outer call of a guest, answered by the hub, the clock or the client.
ghost use Rattle.std.specs.Prelude.{◌≡◌, false};
ghost use Rattle.cache_types.specs.declared.outer.OuterCall.TheVariants as outer;
ghost use Rattle.cache_types.specs.Entries.{is_end};
ghost use Rattle.turnstile.specs.Pass.{IsOf};
ghost use Rattle.cache_hub.specs.Calls.{MayAsk, HasWhole, HasShare};
ghost use Rattle.edge_outside.specs.Made.{Made};
ghost use Rattle.edge_outside.specs.Clock.{AreReadings};
ghost use Rattle.edge_outside.specs.Sink.{IsWrite};
ghost use Rattle.guest_answers.specs.Wire.{frame};
ghost use Rattle.edge_work.specs.Sent.{Sends};
ghost use Rattle.edge_work.specs.Outside.{Outside, IsCacheGiven, stand, outcome_of, named, MayAskOuter};

use crate::client::{send_close, send_head, send_piece};
use crate::work::Hand;
use cache_hub::{Hub, HubPass, UntilFault};
use cache_types::{CacheCall, OneCache, Outcome, OuterCall, OuterReply, Reply, Stepped};
use edge_outside::{Clock, Gate, Sink};
use guest_answers::Answer;
use std::alloc::Global;
use std::sync::Wait;

/// What came of a call: the guest, the last reading in nanoseconds, and the reply or why the guest is to stop.
#[derive(Debug, Drop)]
pub struct Came {
    pub guest: u64,
    pub last: u64,
    pub given: Result<OuterReply, Outcome>,
}

fn outcome_for(first: u64, fault: UntilFault) -> Outcome
    ensures { result ≡ outcome_of first fault }
{
    match fault {
        UntilFault::Timeout { reading } => Outcome::Timeout { first, reading },
        UntilFault::Full => Outcome::HistoryFull,
        UntilFault::OutOfMemory => Outcome::OutOfMemory,
    }
}

/// A Begin names its guest.
fn named_by(call: &CacheCall, guest: u64, number: u64) -> u64
    ensures { result ≡ named call.now guest number }
{
    match call {
        CacheCall::Begin => number,
        _ => guest,
    }
}

/// A call on the cache but End, tried until the deadline.
fn from_cache<W: Wait, S: OneCache, C: Clock, G: Gate>(
    rt: &W,
    hub: &Hub<S>,
    pass: HubPass<S>,
    guest: u64,
    last: u64,
    first: u64,
    limit: u64,
    clock: &mut C,
    gate: &G,
    call: &CacheCall,
) -> (HubPass<S>, Came)
    requires own { IsOf hub.now pass }
    requires may { MayAsk pass guest call.now }
    requires whole { HasWhole pass }
    requires no_end { is_end call.now ≡ false }
    ensures outside { Outside (AreReadings C.reads C.content) (HasShare S.history hub.now) (S.most hub.now.start) first limit (outer.Cache call.now) result.1.given (stand pass guest last clock.old) (stand result.0 result.1.guest result.1.last clock.new) }
    ensures kind { IsCacheGiven result.1.given }
{
    let deadline = u128::from(first) + u128::from(limit);
    let (next, answer, last) = hub.call_timed(rt, pass, guest, clock, deadline, gate, call);
    match answer {
        Ok(told) => {
            let guest = named_by(call, guest, told.number);
            let given = Ok(OuterReply::Cache(told));
            (next, Came { guest, last, given })
        }
        Err(fault) => {
            let given = Err(outcome_for(first, fault));
            (next, Came { guest, last, given })
        }
    }
}

/// A call on the cache. An End is made at the last reading.
fn from_hub<W: Wait, S: OneCache, C: Clock, G: Gate>(
    rt: &W,
    hub: &Hub<S>,
    pass: HubPass<S>,
    guest: u64,
    last: u64,
    first: u64,
    limit: u64,
    clock: &mut C,
    gate: &G,
    call: &CacheCall,
) -> (HubPass<S>, Came)
    requires own { IsOf hub.now pass }
    requires may { MayAsk pass guest call.now }
    requires whole { HasWhole pass }
    ensures outside { Outside (AreReadings C.reads C.content) (HasShare S.history hub.now) (S.most hub.now.start) first limit (outer.Cache call.now) result.1.given (stand pass guest last clock.old) (stand result.0 result.1.guest result.1.last clock.new) }
    ensures kind { IsCacheGiven result.1.given }
{
    match call {
        CacheCall::End => {
            let (pass, number) = hub.end_guest(rt, pass, guest, last);
            let reply = Reply::Done;
            let given = Ok(OuterReply::Cache(Stepped { number, reply }));
            (pass, Came { guest, last, given })
        }
        _ => from_cache(rt, hub, pass, guest, last, first, limit, clock, gate, call),
    }
}

/// One outer call of a guest. Its answer has come as far as `answer` says.
pub fn reply_to<W: Wait, S: OneCache, C: Clock, L, G: Gate, K: Sink>(
    rt: &W,
    alloc: Global,
    hub: &Hub<S>,
    pass: HubPass<S>,
    guest: u64,
    last: u64,
    first: u64,
    limit: u64,
    hand: &mut Hand<C, L>,
    gate: &G,
    sink: &mut K,
    answer: Answer,
    call: &OuterCall,
) -> (HubPass<S>, Came)
    requires own { IsOf hub.now pass }
    requires whole { HasWhole pass }
    requires may { MayAskOuter pass guest call.now }
    ensures outside { Outside (AreReadings C.reads C.content) (HasShare S.history hub.now) (S.most hub.now.start) first limit call.now result.1.given (stand pass guest last hand.old.clock) (stand result.0 result.1.guest result.1.last hand.new.clock) }
    ensures sent { Sends (Made (IsWrite K.writes K.content)) K.faults (frame answer call.now) result.1.given sink.old sink.new }
{
    match call {
        OuterCall::Cache(call) => from_hub(
            rt,
            hub,
            pass,
            guest,
            last,
            first,
            limit,
            &mut hand.clock,
            gate,
            call,
        ),
        OuterCall::Now { .. } => {
            let last = hand.clock.now();
            let given = Ok(OuterReply::Now(last));
            (pass, Came { guest, last, given })
        }
        OuterCall::Head { bytes } => {
            let given = send_head(sink, answer, bytes);
            (pass, Came { guest, last, given })
        }
        OuterCall::Piece { bytes } => {
            let given = send_piece(alloc, sink, answer, bytes);
            (pass, Came { guest, last, given })
        }
        OuterCall::Close { whole } => {
            let given = send_close(alloc, sink, answer, *whole);
            (pass, Came { guest, last, given })
        }
        OuterCall::Log { .. } => {
            let given = Ok(OuterReply::Sent);
            (pass, Came { guest, last, given })
        }
        OuterCall::Start { .. } => {
            let given = Ok(OuterReply::LinkFailed);
            (pass, Came { guest, last, given })
        }
        OuterCall::Poll { .. } => {
            let given = Ok(OuterReply::LinkFailed);
            (pass, Came { guest, last, given })
        }
        OuterCall::WaitFor { .. } => {
            let given = Ok(OuterReply::LinkFailed);
            (pass, Came { guest, last, given })
        }
        OuterCall::AnyOf { .. } => {
            let given = Ok(OuterReply::Index(0));
            (pass, Came { guest, last, given })
        }
    }
}
