//! Where a guest stands between two of its calls.
ghost use Rattle.std.specs.Prelude.{◌≡◌};

use crate::life::{Left, Pause};
use cache_types::{Outcome, OuterCall, OuterReply};
use guest_calls::Under;

/// Where a guest stands.
#[derive(Drop)]
pub enum Phase {
    /// Its Begin isn't answered.
    New,
    /// Its Begin was answered; its instance isn't made.
    Begun,
    /// Its program is to make a call.
    Alive(Pause),
    /// The reply to a row's call came, and the row hasn't gone on.
    Heard {
        left: Left,
        call: OuterCall,
        under: Under,
        reply: OuterReply,
    },
    /// It was stopped after its Begin; End is next.
    Stopping(Outcome),
    Over(Outcome),
}

/// Puts a phase in the place of another.
pub fn set(place: &mut Phase, phase: Phase)
    ensures { place.new ≡ phase }
{
    *place = phase;
}
