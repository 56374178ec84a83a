//! One guest, from its first call to its outcome.
ghost use Rattle.std.specs.Prelude.{◌≡◌, List, [], None, false, IfOk};
ghost use Rattle.turnstile.specs.Pass.{IsOf, IsSamePass};
ghost use Rattle.cache_hub.specs.Calls.{HasWhole, HasShare};
ghost use Rattle.edge_outside.specs.Made.{Made};
ghost use Rattle.edge_outside.specs.Clock.{AreReadings};
ghost use Rattle.edge_outside.specs.Sink.{IsWrite};
ghost use Rattle.player.specs.Plays.{Program, Answered};
ghost use Rattle.player.specs.May.{MayAnswer};
ghost use Rattle.edge_work.specs.Next.{answer_by, gone_by, is_done, trace_by, stopped_by, ended_by};
ghost use Rattle.edge_work.specs.Work.{WorkedOne};

use crate::client::finish;
use crate::outside::{Came, reply_to};
use cache_hub::{Hub, HubPass};
use cache_types::{Done, OneCache, Outcome, OuterCall, OuterReply};
use edge_body::RequestHead;
use edge_outside::{Clock, Gate, Sink};
use guest_answers::{Answer, after_call};
use player::{Player, Turn};
use std::alloc::Global;
use std::sync::Wait;

/// What a worker has for itself. The link isn't asked yet.
#[derive(Debug, Drop)]
pub struct Hand<C, L> {
    pub clock: C,
    pub link: L,
}

/// How far the answer has come.
fn answer_by(
    request: &RequestHead,
    answer: Answer,
    call: OuterCall,
    given: &Result<OuterReply, Outcome>,
) -> Answer
    ensures { result ≡ answer_by request.now.method answer call given.now }
{
    match given {
        Ok(_) => after_call(request, answer, &call),
        Err(_) => answer,
    }
}

/// Whether the client is gone.
fn gone_by(gone: bool, given: &Result<OuterReply, Outcome>) -> bool
    ensures { result ≡ gone_by gone given.now }
{
    match given {
        Ok(_) => gone,
        Err(outcome) => matches!(outcome, Outcome::ClientGone),
    }
}

/// Whether nothing more is to be sent.
fn is_done(answer: Answer, gone: bool) -> bool
    ensures { result ≡ is_done answer gone }
{
    !matches!(answer, Answer::Headless) || gone
}

/// The reply goes to the player, or stops it.
fn tell<P: Player>(player: &mut P, given: Result<OuterReply, Outcome>)
    requires { IfOk given (MayAnswer (P.waits player.old)) }
    ensures plays { (next : Program) (trace : List Answered) → P.Plays player.old next trace → P.Plays player.new next (trace_by trace (P.waits player.old) given) }
    ensures stopped { P.stopped player.new ≡ stopped_by (P.stopped player.old) given }
    ensures ended { P.ended player.new ≡ ended_by (P.ended player.old) (P.waits player.old) given }
{
    match given {
        Ok(reply) => player.answer(reply),
        Err(outcome) => player.stop(outcome),
    }
}

/// Runs one guest to its end, with its answer to the request going to the sink. It reads the clock once, and the guest is
/// stopped where a later reading is `limit` nanoseconds behind that. The gate is met before each outer call.
pub fn work_one<W: Wait, S: OneCache, P: Player, C: Clock, L, G: Gate, K: Sink>(
    rt: &W,
    alloc: Global,
    hub: &Hub<S>,
    pass: HubPass<S>,
    index: u64,
    limit: u64,
    request: &RequestHead,
    player: &mut P,
    hand: &mut Hand<C, L>,
    gate: &G,
    sink: &mut K,
) -> (HubPass<S>, Done)
    requires own { IsOf hub.now pass }
    requires whole { HasWhole pass }
    requires plays { (next : Program) × P.Plays player.old next [] }
    requires new { (P.stopped player.old ≡ None) × (P.ended player.old ≡ false) }
    ensures same { IsSamePass pass result.0 }
    ensures whole { HasWhole result.0 }
    ensures share { HasShare S.history hub.now pass → HasShare S.history hub.now result.0 }
    ensures work { WorkedOne (AreReadings C.reads C.content) (Made (IsWrite K.writes K.content)) K.faults (λ next. P.Plays player.old next []) (S.most hub.now.start) limit index request.now.method pass result.0 hand.old.clock hand.new.clock sink.old sink.new result.1 }
{
    let mut pass = pass;
    let mut guest = 0;
    let mut place = 0u64;
    let mut answer = Answer::Headless;
    let mut gone = false;
    let first = hand.clock.now();
    let mut last = first;
    for _ in rt.forever() {
        match player.advance() {
            Turn::Over(outcome) => {
                let done = is_done(answer, gone);
                finish(sink, done);
                let trace = player.take_trace();
                return (
                    pass,
                    Done {
                        index,
                        guest,
                        trace,
                        outcome,
                    },
                );
            }
            Turn::Outer(call) => {
                place = place.saturating_add(1);
                gate.before(index, place);
                let (next, came) = reply_to(
                    rt, alloc, hub, pass, guest, last, first, limit, hand, gate, sink, answer,
                    &call,
                );
                let Came {
                    guest: named,
                    last: reading,
                    given,
                } = came;
                pass = next;
                guest = named;
                last = reading;
                answer = answer_by(request, answer, call, &given);
                gone = gone_by(gone, &given);
                tell(player, given);
            }
        }
    }
    unreachable!()
}
