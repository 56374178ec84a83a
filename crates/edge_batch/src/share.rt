//! The share of one worker.
ghost use Rattle.std.specs.Prelude.{◌≡◌, vec_capacity, IsSomeAnd};
ghost use Rattle.turnstile.specs.Pass.{IsOf};
ghost use Rattle.edge_outside.specs.Clock.{AreReadings};
ghost use Rattle.edge_batch.specs.Shares.{IsUnused, IsReady, WorkedShare, PassWorked};

use crate::maker::GuestMaker;
use crate::request::work_request;
use cache_hub::{Hub, HubPass};
use cache_types::{Done, OneCache};
use edge_outside::{Clock, Gate};
use edge_work::Hand;
use http_front::Incoming;
use std::alloc::Global;
use std::sync::Wait;
use worker_crew::Duty;

/// Works off the requests one after another, the first of them under this index, and keeps their blocks.
fn work_share<W: Wait, S: OneCache, M: GuestMaker, C: Clock, L, G: Gate>(
    rt: &W,
    alloc: Global,
    hub: &Hub<S>,
    pass: HubPass<S>,
    maker: &M,
    first: u64,
    limit: u64,
    requests: &[Incoming],
    hand: &mut Hand<C, L>,
    gate: &G,
    blocks: &mut Vec<Done>,
) -> HubPass<S>
    requires unused { IsUnused hub.now pass }
    requires can { M.can maker.now }
    requires ready { IsReady first requests.now (vec_capacity blocks.old) blocks.old.items }
    ensures own { IsOf hub.now result }
    ensures work { WorkedShare (AreReadings C.reads C.content) (M.Began maker.now) (S.most hub.now.start) limit first requests.now pass result hand.old.clock hand.new.clock blocks.new.items }
{
    let mut pass = pass;
    let mut index = first;
    for request in requests {
        let (next, done) = work_request(
            rt, alloc, hub, pass, maker, index, limit, request, hand, gate,
        );
        pass = next;
        blocks.push_reserved(done);
        index += 1;
    }
    pass
}

/// What one worker has: its clock, its pass while nobody else uses it, and its share, the first of it under an index of its
/// own; the blocks of what is worked off.
#[derive(Drop)]
pub struct Seat<'a, S: OneCache, C, L> {
    pub hand: Hand<C, L>,
    pub pass: Option<HubPass<S>>,
    pub first: u64,
    pub requests: &'a [Incoming],
    pub blocks: Vec<Done>,
}

/// What all workers of a batch share. A guest may take `limit` nanoseconds.
#[derive(Drop)]
pub struct Batch<'a, S: OneCache, M, G> {
    pub alloc: Global,
    pub hub: &'a Hub<S>,
    pub maker: &'a M,
    pub gate: &'a G,
    pub limit: u64,
}

impl<'a, 'b, S: OneCache, M: GuestMaker, C: Clock, L, G: Gate> Duty<Seat<'b, S, C, L>>
    for Batch<'a, S, M, G> {
    ghost can = { λ batch seat. M.can batch.maker.now × IsSomeAnd seat.pass (IsUnused batch.hub.now) × IsReady seat.first seat.requests.now (vec_capacity seat.blocks) seat.blocks.items };

    ghost did = { λ batch old new. (new.first ≡ old.first) × (new.requests ≡ old.requests) × PassWorked (λ before after. IsOf batch.hub.now after × WorkedShare (AreReadings C.reads C.content) (M.Began batch.maker.now) (S.most batch.hub.now.start) batch.limit old.first old.requests.now before after old.hand.clock new.hand.clock new.blocks.items) old.pass new.pass };

    fn work<W: Wait>(&self, rt: &W, seat: &mut Seat<'b, S, C, L>) {
        if let Some(pass) = seat.pass.take() {
            let pass = work_share(
                rt,
                self.alloc,
                self.hub,
                pass,
                self.maker,
                seat.first,
                self.limit,
                seat.requests,
                &mut seat.hand,
                self.gate,
                &mut seat.blocks,
            );
            seat.pass = Some(pass);
        }
    }
}
