//! The hub, and its calls that wait for nothing.
ghost use Rattle.std.specs.Prelude.{◌≡◌, ◌+◌, ◌-◌, ◌<◌, ◌++◌, length, IfOk, IfErr};
ghost use mathlib.Core.List.{IsPrefix};
ghost use Rattle.cache_types.specs.Legal.{IsLegal};
ghost use Rattle.cache_types.specs.Laws.{IsLawful};
ghost use Rattle.turnstile.specs.Rule.{all_parts};
ghost use Rattle.turnstile.specs.Log.{entries_of, numbered};
ghost use Rattle.turnstile.specs.Pass.{IsOf, IsSamePass, first_pass, new_pass, both_passes, HasLearned};
ghost use Rattle.cache_hub.specs.Calls.{IsSound, MayAsk, HasWhole, HasShare, KeepsGuests, MakesGuest};
ghost use Rattle.cache_hub.specs.Hub.{Called, AreApart, told_of};

use crate::faults::CallFault;
use crate::shelf::{Ask, HubPass, Shelf};
use cache_types::{CacheCall, History, OneCache, StepFault, Stepped};
use std::alloc::Global;
use std::marker::Model;
use turnstile::{Busy, Turnstile};

/// One cache that any number of passes call.
#[derive(Drop)]
pub struct Hub<S: OneCache> {
    pub(crate) turnstile: Turnstile<Shelf<S>>,
}

impl<S: OneCache> Model for Hub<S> {
    ghost use Rattle.turnstile.specs.Pass.{TurnstileView};

    ghost Value = { TurnstileView S };

    ghost view = { λ h. h.turnstile };
}

/// What the turnstile's answer is to a caller of the hub.
fn told(answer: Result<Result<Stepped, StepFault>, Busy>) -> Result<Stepped, CallFault>
    ensures { result ≡ told_of answer }
{
    match answer {
        Ok(Ok(told)) => Ok(told),
        Ok(Err(StepFault::Full)) => Err(CallFault::Full),
        Ok(Err(StepFault::OutOfMemory)) => Err(CallFault::OutOfMemory),
        Err(Busy) => Err(CallFault::Busy),
    }
}

impl<S: OneCache> Hub<S> {
    /// A hub over a cache, and the pass with all its parts. Where there is no memory the cache comes back.
    pub fn open(alloc: Global, cache: S) -> Result<(Hub<S>, HubPass<S>), S>
        requires { IsSound (S.history cache) }
        ensures made { IfOk result (λ made. (made.0.start ≡ cache) × (made.1 ≡ first_pass made.0 (S.history cache))) }
        ensures refused { IfErr result (λ back. back ≡ cache) }
    {
        match Turnstile::new(alloc, Shelf { cache }) {
            Ok((turnstile, pass)) => Ok((Hub { turnstile }, pass)),
            Err(Shelf { cache }) => Err(cache),
        }
    }

    /// One try of a guest's call at this reading of its clock, in nanoseconds. It waits for nothing.
    pub fn try_call(
        &self,
        pass: HubPass<S>,
        guest: u64,
        reading: u64,
        call: &CacheCall,
    ) -> (HubPass<S>, Result<Stepped, CallFault>)
        requires own { IsOf self.now pass }
        requires may { MayAsk pass guest call.now }
        ensures call { Called (S.most self.now.start) pass guest reading call.now result.1 result.0 }
        ensures same { IsSamePass pass result.0 }
        ensures whole { HasWhole result.0 }
        ensures share { HasShare S.history self.now result.0 }
        ensures guests { KeepsGuests pass guest call.now result.0 }
        ensures begins { IfOk result.1 (λ told. MakesGuest call.now told result.0) }
    {
        let ask = Ask {
            guest,
            reading,
            call,
        };
        let (pass, answer) = self.turnstile.try_turn(pass, &ask);
        (pass, told(answer))
    }

    /// The second pass gets so many parts, and can go to another thread.
    pub fn split(&self, pass: HubPass<S>, parts: u64) -> (HubPass<S>, HubPass<S>)
        requires own { IsOf self.now pass }
        requires parts { (0 < parts) × (parts < pass.parts) }
        ensures kept { result.0 ≡ record pass { parts = pass.parts - parts } }
        ensures given { result.1 ≡ new_pass pass parts }
    {
        self.turnstile.split(pass, parts)
    }

    /// Two passes in one. No entry was made through both.
    pub fn rejoin(&self, one: HubPass<S>, other: HubPass<S>) -> HubPass<S>
        requires one { IsOf self.now one }
        requires other { IsOf self.now other }
        ensures both { result ≡ both_passes one other }
        ensures one_seen { IsPrefix one.seen result.seen }
        ensures other_seen { IsPrefix other.seen result.seen }
        ensures apart { AreApart one.mine other.mine }
        ensures whole { HasWhole result }
        ensures share { HasShare S.history self.now result }
    {
        self.turnstile.rejoin(one, other)
    }

    /// Has seen what was published by now. The clauses say that nothing that was seen is forgotten, not how much is learned.
    pub fn learn(&self, pass: HubPass<S>) -> HubPass<S>
        requires own { IsOf self.now pass }
        ensures learned { HasLearned (S.history self.now.start) pass result }
        ensures whole { HasWhole result }
        ensures share { HasShare S.history self.now result }
    {
        self.turnstile.learn(pass)
    }

    /// The whole history, by the pass with all parts: each entry that was added since the hub was opened is its own.
    pub fn finish(self, pass: HubPass<S>) -> History
        requires own { IsOf self pass }
        requires all { pass.parts ≡ all_parts }
        ensures list { result ≡ S.history self.start ++ entries_of pass.mine }
        ensures numbers { pass.mine ≡ numbered (1 + length (S.history self.start)) (entries_of pass.mine) }
        ensures seen { IsPrefix pass.seen result }
        ensures legal { IsLegal result }
        ensures lawful { IsLawful result }
    {
        let Hub { turnstile } = self;
        let Shelf { cache } = turnstile.close(pass);
        cache.into_history()
    }
}
