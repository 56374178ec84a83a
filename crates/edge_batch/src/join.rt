//! What all workers did, put together.
ghost use Rattle.std.specs.Prelude.{◌≡◌, ◌+◌, ◌++◌, ◌∷◌, ℕ, List, [], length, is_ok, IsOk, IsSomeAnd, if◌then◌else◌};
ghost use Rattle.turnstile.specs.Rule.{all_parts};
ghost use Rattle.turnstile.specs.Pass.{IsOf, both_passes};
ghost use Rattle.cache_types.specs.declared.outer.Done.{Done};
ghost use Rattle.http_front.specs.declared.heads.Incoming.{Incoming};
ghost use Rattle.edge_batch.specs.Blocks.{joint_of, joint_with, Worked};
ghost use Rattle.edge_batch.specs.Batch.{IsBatch};

use crate::maker::GuestMaker;
use crate::share::{Batch, Seat};
use cache_hub::{Hub, HubPass};
use cache_types::{Done, History, OneCache};
use std::alloc::AllocError;

impl<'a, S: OneCache, M: GuestMaker, G> Batch<'a, S, M, G> {
    /// The pass and the blocks of a worker go to those of the workers before it: what these did and what it did they did
    /// together. Where there is no memory for the blocks they stay where they are, and the pass comes back all the same.
    pub fn rejoin<'b, C, L>(
        &self,
        pass: HubPass<S>,
        seat: &mut Seat<'b, S, C, L>,
        blocks: &mut Vec<Done>,
    ) -> (HubPass<S>, Result<(), AllocError>)
        requires own { IsOf self.now.hub.now pass }
        requires seat { IsSomeAnd seat.old.pass (IsOf self.now.hub.now) }
        ensures pass { IsSomeAnd seat.old.pass (λ other. result.0 ≡ both_passes pass other) }
        ensures own { IsOf self.now.hub.now result.0 }
        ensures blocks { blocks.new.items ≡ (if is_ok result.1 then blocks.old.items ++ seat.old.blocks.items else blocks.old.items) }
        ensures worked { IsOk result.1 → (clocks : List (List ℕ)) (readings : List ℕ) (index : ℕ) (requests : List Incoming) → seat.old.first ≡ index + length requests → Worked (S.most self.now.hub.now.start) self.now.limit (M.Began self.now.maker.now) (joint_with pass clocks) index requests blocks.old.items
            → IsSomeAnd seat.old.pass (λ other. Worked (S.most self.now.hub.now.start) self.now.limit (M.Began self.now.maker.now) (joint_of other readings) seat.old.first seat.old.requests.now seat.old.blocks.items)
            → Worked (S.most self.now.hub.now.start) self.now.limit (M.Began self.now.maker.now) (joint_with result.0 (clocks ++ readings ∷ [])) index (requests ++ seat.old.requests.now) blocks.new.items }
    {
        match seat.pass.take() {
            Some(other) => {
                let moved = blocks.append(&mut seat.blocks);
                (self.hub.rejoin(pass, other), moved)
            }
            None => (pass, Ok(())),
        }
    }
}

/// The whole history, by the pass of all workers together: what they did is the batch. The hub began with no entries.
pub fn finish_batch<S: OneCache, M: GuestMaker>(
    hub: Hub<S>,
    _maker: &M,
    _limit: u64,
    pass: HubPass<S>,
) -> History
    requires own { IsOf hub pass }
    requires all { pass.parts ≡ all_parts }
    requires fresh { S.history hub.start ≡ [] }
    ensures batch { (clocks : List (List ℕ)) (requests : List Incoming) (blocks : List Done) → Worked (S.most hub.start) _limit (M.Began _maker.now) (joint_with pass clocks) 1 requests blocks → IsBatch (S.most hub.start) _limit (M.Began _maker.now) requests result clocks blocks }
{
    hub.finish(pass)
}
