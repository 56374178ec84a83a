//! A source in memory, which gives its bytes in pieces of a chosen size and fails where it is told to.
ghost use Rattle.std.specs.Prelude.{◌≡◌, ◌≤◌, Some};
ghost use Rattle.edge_outside.specs.Source.{ReadsSource};

use crate::plan::Plan;
use crate::{Failed, Source};
use std::marker::Model;

/// A source in memory.
#[derive(Drop)]
pub struct MemSource {
    bytes: Vec<u8>,
    at: usize,
    most: usize,
    plan: Plan,
    faults: u64,
}

impl Model for MemSource {
    ghost use Rattle.std.specs.Prelude.{length, drop, ◌≤◌, ◌<◌};
    ghost use Rattle.edge_outside.specs.Source.{SourceInMemory};

    ghost Value = { SourceInMemory };

    ghost invariant = { λ s. (s.at ≤ length s.bytes.items) × (0 < s.most) };

    ghost view = { λ s. record { content = record { bytes = drop s.at s.bytes.items; most = s.most; calls = s.plan }; faults = s.faults } };
}

impl MemSource {
    /// Gives these bytes, at most `most` of them in one read. The reads with the numbers in `fails` fail, counted from 1.
    pub fn new(bytes: Vec<u8>, most: usize, fails: Vec<u64>) -> Self
        requires { 1 ≤ most }
        ensures bytes { result.content.bytes ≡ bytes.items }
        ensures most { result.content.most ≡ most }
        ensures fails { result.content.calls.fails ≡ fails.items }
        ensures made { result.content.calls.made ≡ 0 }
        ensures faults { result.faults ≡ 0 }
    {
        MemSource {
            bytes,
            at: 0,
            most,
            plan: Plan::new(fails),
            faults: 0,
        }
    }
}

impl Source for MemSource {
    ghost reads = { ReadsSource };

    ghost faults = { λ s. s.faults };

    ghost content = { λ s. Some s.content };

    fn read(&mut self, into: &mut [u8]) -> Result<usize, Failed> {
        let faults = self.faults;
        let at = self.at;
        if self.plan.fails_next() {
            self.faults = faults.saturating_add(1);
            return Err(Failed);
        }
        let count = self.most.min(into.len()).min(self.bytes.len() - at);
        into[..count].copy_from_slice(&self.bytes[at..at + count]);
        self.at = at + count;
        Ok(count)
    }
}
