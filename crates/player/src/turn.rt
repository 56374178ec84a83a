//! What a player does next.

ghost use Rattle.std.specs.Prelude.{◌≡◌};
ghost use Rattle.player.specs.Plays.{is_over};

use cache_types::{Outcome, OuterCall};

/// What a player does next: a call on what stands outside it, or nothing, since it is over.
#[derive(Debug, Drop)]
pub enum Turn {
    Outer(OuterCall),
    Over(Outcome),
}

impl Turn {
    /// There is nothing more to do.
    pub fn is_over(self) -> bool
        ensures { result ≡ is_over self }
    {
        matches!(self, Turn::Over(_))
    }
}
