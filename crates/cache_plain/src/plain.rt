//! The cache that keeps its entries in a list.

ghost use Rattle.std.specs.Prelude.{◌≡◌, ◌≤◌, []};

use crate::steps::step_over;
use cache_types::{CacheCall, Entry, History, OneCache, StepFault, Stepped};
use std::alloc::Global;
use std::marker::Model;

/// A cache that keeps its entries in a list and finds every answer by walking it.
#[derive(Drop)]
pub struct PlainCache {
    entries: Vec<Entry>,
    /// How many guests are live.
    live: usize,
    most: u64,
}

impl Model for PlainCache {
    ghost use Rattle.std.specs.Prelude.{vec_capacity};
    ghost use Rattle.cache_log.specs.Kept.{Shown, IsKept};

    ghost Value = { Shown };

    ghost view = { λ cache. record { history = cache.entries.items; most = cache.most } };

    ghost invariant = { λ cache. IsKept cache.entries.items cache.live (vec_capacity cache.entries) };
}

impl PlainCache {
    /// An empty cache with room for so many entries and live guests.
    pub fn new(alloc: Global, most: u64) -> PlainCache
        requires { 2 ≤ most }
        ensures empty { result.history ≡ [] }
        ensures most { result.most ≡ most }
    {
        PlainCache {
            entries: Vec::new(alloc),
            live: 0,
            most,
        }
    }
}

impl OneCache for PlainCache {
    ghost history = { λ cache. cache.history };

    ghost most = { λ cache. cache.most };

    fn step(&mut self, guest: u64, reading: u64, call: &CacheCall) -> Result<Stepped, StepFault> {
        step_over(
            &mut self.entries,
            &mut self.live,
            self.most,
            guest,
            reading,
            call,
        )
    }

    fn into_history(self) -> History {
        History::of(self.entries)
    }
}
