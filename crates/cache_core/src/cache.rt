//! The cache that finds its answers by ordered maps.

ghost use Rattle.std.specs.Prelude.{◌≡◌, ◌≤◌, []};

use crate::parts::Parts;
use crate::steps::step_over;
use crate::waits::Waits;
use cache_index::Index;
use cache_types::{CacheCall, Entry, History, OneCache, StepFault, Stepped};
use cache_waiters::Goals;
use std::alloc::Global;
use std::collections::BTreeMap;
use std::marker::Model;

/// A cache that keeps its entries in a list and finds every answer by ordered maps beside it.
#[derive(Drop)]
pub struct CoreCache {
    entries: Vec<Entry>,
    /// How many guests are live.
    live: usize,
    most: u64,
    parts: Parts,
    waits: Waits,
}

impl Model for CoreCache {
    ghost use Rattle.std.specs.Prelude.{vec_capacity};
    ghost use Rattle.cache_types.specs.Entries.{newest_first};
    ghost use Rattle.cache_log.specs.Kept.{Shown, IsKept};
    ghost use Rattle.cache_core.specs.Knows.{Knows};
    ghost use Rattle.cache_core.specs.Waits.{Awaits};

    ghost Value = { Shown };

    ghost view = { λ cache. record { history = cache.entries.items; most = cache.most } };

    ghost invariant = { λ cache. IsKept cache.entries.items cache.live (vec_capacity cache.entries) × Knows cache.parts (newest_first cache.entries.items) × Awaits cache.waits (newest_first cache.entries.items) };
}

impl CoreCache {
    /// An empty cache with room for so many entries and live guests.
    pub fn new(alloc: Global, most: u64) -> CoreCache
        requires { 2 ≤ most }
        ensures empty { result.history ≡ [] }
        ensures most { result.most ≡ most }
    {
        CoreCache {
            entries: Vec::new(alloc),
            live: 0,
            most,
            parts: Parts {
                index: Index::new(alloc),
                objects: BTreeMap::new(alloc),
                guests: BTreeMap::new(alloc),
                bearers: BTreeMap::new(alloc),
            },
            waits: Waits {
                goals: Goals::new(alloc),
                endings: BTreeMap::new(alloc),
            },
        }
    }
}

impl OneCache for CoreCache {
    ghost history = { λ cache. cache.history };

    ghost most = { λ cache. cache.most };

    fn step(&mut self, guest: u64, reading: u64, call: &CacheCall) -> Result<Stepped, StepFault> {
        step_over(
            &mut self.entries,
            &mut self.live,
            &mut self.parts,
            &mut self.waits,
            self.most,
            guest,
            reading,
            call,
        )
    }

    fn into_history(self) -> History {
        History::of(self.entries)
    }
}
