//! A clock in memory, which gives the readings that it is told.
ghost use Rattle.std.specs.Prelude.{◌≡◌, Some};
ghost use Rattle.edge_outside.specs.Clock.{Tells};

use crate::Clock;
use std::marker::Model;

/// A clock in memory.
#[derive(Drop)]
pub struct MemClock {
    readings: Vec<u64>,
    at: usize,
    last: u64,
    made: u64,
}

impl Model for MemClock {
    ghost use Rattle.std.specs.Prelude.{length, drop, ◌≤◌};
    ghost use Rattle.edge_outside.specs.Clock.{ClockContent};

    ghost Value = { ClockContent };

    ghost invariant = { λ c. c.at ≤ length c.readings.items };

    ghost view = { λ c. record { left = drop c.at c.readings.items; last = c.last; made = c.made } };
}

impl MemClock {
    /// Gives these readings, in nanoseconds, and then the last of them for ever; 0 where there are none.
    pub fn new(readings: Vec<u64>) -> Self
        ensures left { result.left ≡ readings.items }
        ensures last { result.last ≡ 0 }
        ensures made { result.made ≡ 0 }
    {
        MemClock {
            readings,
            at: 0,
            last: 0,
            made: 0,
        }
    }
}

impl Clock for MemClock {
    ghost reads = { Tells };

    ghost content = { λ c. Some c };

    fn now(&mut self) -> u64 {
        self.made = self.made.saturating_add(1);
        if let Some(reading) = self.readings.get(self.at) {
            self.last = *reading;
            self.at += 1;
        }
        self.last
    }
}
