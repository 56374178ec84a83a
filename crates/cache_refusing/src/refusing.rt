//! A cache over another, that finds no memory at one step.

ghost use Rattle.std.specs.Prelude.{◌≡◌, ◌≤◌};
ghost use Rattle.cache_types.specs.Legal.{IsLegal};

use cache_log::is_end;
use cache_types::{CacheCall, History, OneCache, StepFault, Stepped};
use std::marker::Model;

/// A cache over another. It counts the steps whose call isn't End, whatever they would answer; the
/// one with the chosen number answers OutOfMemory, and every other is the inner cache's.
#[derive(Drop)]
pub struct RefusingCache<S: OneCache> {
    inner: S,
    at: u64,
    made: u64,
}

impl<S: OneCache> Model for RefusingCache<S> {
    ghost use Rattle.cache_log.specs.Kept.{Shown};
    ghost use Rattle.cache_types.specs.Legal.{IsLegal};

    ghost Value = { Shown };

    ghost view = { λ cache. record { history = S.history cache.inner; most = S.most cache.inner } };

    ghost invariant = { λ cache. IsLegal (S.history cache.inner) };
}

impl<S: OneCache> RefusingCache<S> {
    /// The cache, with no memory at the step of this number, counted from 1.
    pub fn new(inner: S, at: u64) -> RefusingCache<S>
        requires at { 1 ≤ at }
        requires legal { IsLegal (S.history inner) }
        ensures history { result.history ≡ S.history inner }
        ensures most { result.most ≡ S.most inner }
    {
        RefusingCache { inner, at, made: 0 }
    }
}

impl<S: OneCache> OneCache for RefusingCache<S> {
    ghost history = { λ cache. cache.history };

    ghost most = { λ cache. cache.most };

    fn step(&mut self, guest: u64, reading: u64, call: &CacheCall) -> Result<Stepped, StepFault> {
        if self.made < self.at && !is_end(call) {
            self.made += 1;
            if self.made == self.at {
                return Err(StepFault::OutOfMemory);
            }
        }
        self.inner.step(guest, reading, call)
    }

    fn into_history(self) -> History {
        self.inner.into_history()
    }
}
