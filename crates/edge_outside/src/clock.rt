//! The time, as it is read.
ghost use Rattle.std.specs.Prelude.{ℕ, Option};
ghost use Rattle.edge_outside.specs.Clock.{ClockContent, TellsWhereTold};

/// Tells the time. It has no fault.
pub trait Clock {
    /// A reading was made: the clock before it, the reading and the clock after it.
    ghost reads: { Self → ℕ → Self → Type 0 };

    /// The readings that it has left, where that is told.
    ghost content: { Self → Option ClockContent };

    /// One reading, in nanoseconds. It may be less than the one before it.
    fn now(&mut self) -> u64
        ensures call { reads self.old result self.new }
        ensures content { TellsWhereTold (content self.old) result (content self.new) };
}
