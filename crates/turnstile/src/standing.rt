//! The values that a turnstile can keep.
ghost use Rattle.std.specs.Prelude.{◌≡◌, ℕ, ◌+◌, ◌<◌, ◌^◌, List, Option, length};
ghost use Rattle.turnstile.specs.Standing.{family_entries, Adds};

/// A value that stands for a list of entries, and has a setting that no call changes. Contracts alone see both.
pub trait Standing {
    type Entry;

    ghost Setting: { Type 0 };

    ghost setting: { Self → Setting };

    ghost entries: { Self → List Self.Entry };

    // The number of the first entry.
    ghost first: { Self → ℕ };

    // What holds of the value between two turns.
    ghost sound: { Self → Type 0 };

    // The number of the entry that opened the entry's family: its own, where it opens one.
    ghost family: { Self.Entry → ℕ };
}

/// A value that serves jobs.
pub trait Kept<J>: Standing {
    type Answer;

    // The family that the job's entry joins, or none where it opens one.
    ghost joins: { J → Option ℕ };

    // What the job needs of its family's entries.
    ghost asks: { J → List Self.Entry → Type 0 };

    // Of the value before, the job, its answer, and the entry that it added, if any.
    ghost gives: { Self → J → Self.Answer → Option Self.Entry → Type 0 };

    /// The job's answer, and whether an entry was added.
    fn serve(&mut self, job: &J) -> (Self::Answer, bool)
        requires sound { Self.sound self.old }
        requires asks { asks job.now (family_entries Self.family (joins job.now) (Self.entries self.old)) }
        ensures setting { Self.setting self.new ≡ Self.setting self.old }
        ensures first { Self.first self.new ≡ Self.first self.old }
        ensures sound { Self.sound self.new }
        ensures room { length (Self.entries self.new) < 2 ^ 64 }
        ensures gives { (gained : Option Self.Entry) × gives self.old job.now result.0 gained × Adds Self.family (joins job.now) (Self.first self.old + length (Self.entries self.old)) (Self.entries self.old) gained result.1 (Self.entries self.new) };
}
