//! One request of a share.
ghost use Rattle.std.specs.Prelude.{◌≡◌, [], None, false};
ghost use Rattle.turnstile.specs.Pass.{IsOf, IsSamePass};
ghost use Rattle.cache_hub.specs.Calls.{HasWhole};
ghost use Rattle.edge_outside.specs.Clock.{AreReadings};
ghost use Rattle.player.specs.Plays.{Program};
ghost use Rattle.edge_batch.specs.Blocks.{unmade};
ghost use Rattle.edge_batch.specs.Shares.{WorkedRequest};

use crate::maker::GuestMaker;
use cache_hub::{Hub, HubPass};
use cache_types::{Done, Items, OneCache, Outcome};
use edge_body::RequestHead;
use edge_outside::{Clock, Gate, NullSink};
use edge_work::{Hand, work_one};
use http_front::Incoming;
use player::Player;
use std::alloc::Global;
use std::sync::Wait;

/// The block of a guest for which no memory was found.
fn unmade(alloc: Global, index: u64) -> Done
    ensures { result ≡ unmade index }
{
    Done {
        index,
        guest: 0,
        trace: Items::of(Vec::new(alloc)),
        outcome: Outcome::OutOfMemory,
    }
}

/// Runs a guest to its end. Its answer stands in its block alone.
fn work_guest<W: Wait, S: OneCache, P: Player + Drop, C: Clock, L, G: Gate>(
    rt: &W,
    alloc: Global,
    hub: &Hub<S>,
    pass: HubPass<S>,
    index: u64,
    limit: u64,
    request: &RequestHead,
    player: P,
    hand: &mut Hand<C, L>,
    gate: &G,
) -> (HubPass<S>, Done)
    requires own { IsOf hub.now pass }
    requires whole { HasWhole pass }
    requires plays { (next : Program) × P.Plays player next [] }
    requires new { (P.stopped player ≡ None) × (P.ended player ≡ false) }
    ensures same { IsSamePass pass result.0 }
    ensures whole { HasWhole result.0 }
    ensures work { WorkedRequest (AreReadings C.reads C.content) (λ next. P.Plays player next []) (S.most hub.now.start) limit index pass result.0 hand.old.clock hand.new.clock result.1 }
{
    let mut player = player;
    let mut sink = NullSink::new();
    work_one(
        rt,
        alloc,
        hub,
        pass,
        index,
        limit,
        request,
        &mut player,
        hand,
        gate,
        &mut sink,
    )
}

/// Makes the guest of a request and runs it. One for which there is no memory has a block without calls.
pub fn work_request<W: Wait, S: OneCache, M: GuestMaker, C: Clock, L, G: Gate>(
    rt: &W,
    alloc: Global,
    hub: &Hub<S>,
    pass: HubPass<S>,
    maker: &M,
    index: u64,
    limit: u64,
    request: &Incoming,
    hand: &mut Hand<C, L>,
    gate: &G,
) -> (HubPass<S>, Done)
    requires own { IsOf hub.now pass }
    requires whole { HasWhole pass }
    requires can { M.can maker.now }
    ensures same { IsSamePass pass result.0 }
    ensures whole { HasWhole result.0 }
    ensures work { WorkedRequest (AreReadings C.reads C.content) (M.Began maker.now index request.now) (S.most hub.now.start) limit index pass result.0 hand.old.clock hand.new.clock result.1 }
{
    match maker.make(alloc, index, request) {
        Ok(guest) => work_guest(
            rt,
            alloc,
            hub,
            pass,
            index,
            limit,
            &request.head,
            guest,
            hand,
            gate,
        ),
        Err(_) => (pass, unmade(alloc, index)),
    }
}
