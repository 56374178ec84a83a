//! What every guest of a schedule promises.

ghost use Rattle.std.specs.Prelude.{◌≡◌, Bool, List, Option, Some, None, IsTrue};
ghost use Rattle.cache_types.specs.declared.outer.OuterCall.{OuterCall};
ghost use Rattle.cache_types.specs.declared.outer.Outcome.{Outcome};
ghost use Rattle.player.specs.Plays.{Program, Answered, due, call_in, is_over, with_reply, is_end_call, events_of};
ghost use Rattle.player.specs.May.{IsStopAfter, MayAnswer, MayTake};
ghost use Rattle.player.specs.Tickets.{AreFresh};

use crate::turn::Turn;
use cache_types::{Outcome, OuterReply, Trace};

/// A guest that makes outer calls and is told their replies.
pub trait Player {
    /// It plays this program, and these are its answered calls, in order.
    ghost Plays: { Self → Program → List Answered → Type 0 };

    /// Where a guest of this kind may want memory: with this program, behind these answered calls.
    ghost MayWant: { Program → List Answered → Type 0 };

    /// Why it was stopped: from outside, or for want of memory.
    ghost stopped: { Self → Option Outcome };

    /// Its End was answered.
    ghost ended: { Self → Bool };

    /// The call that it gave and that isn't answered.
    ghost waits: { Self → Option OuterCall };

    /// It has nothing more to do.
    ghost over: { Self → Bool };

    /// Its next call, the same one until it is answered, or how it ended. Want of memory stops it.
    fn advance(&mut self) -> Turn
        ensures waits { waits self.new ≡ call_in result }
        ensures over { over self.new ≡ is_over result }
        ensures plays { (next : Program) (trace : List Answered) → Plays self.old next trace → Plays self.new next trace }
        ensures turn { (next : Program) (trace : List Answered) → Plays self.old next trace → result ≡ due next trace (ended self.new) (stopped self.new) }
        ensures stopped { (next : Program) (trace : List Answered) → Plays self.old next trace → IsStopAfter (MayWant next trace) (ended self.old) (stopped self.old) (stopped self.new) }
        ensures ended { ended self.new ≡ ended self.old }

        // What it asks keeps the conditions of calls, as long as each ticket given to it was a new one.
        ensures may { (next : Program) (trace : List Answered) → Plays self.old next trace → AreFresh trace → MayTake trace (ended self.new) (stopped self.new) result };

    /// The reply to the call that it gave, one of the call's kind. Takes no memory.
    fn answer(&mut self, reply: OuterReply)
        requires { MayAnswer (waits self.old) reply }
        ensures plays { (next : Program) (trace : List Answered) → Plays self.old next trace → Plays self.new next (with_reply trace (waits self.old) reply) }
        ensures waits { waits self.new ≡ None }
        ensures stopped { stopped self.new ≡ stopped self.old }
        ensures ended { ended self.new ≡ is_end_call (waits self.old) };

    /// Stops it from outside: where it began, End is its next and last call.
    fn stop(&mut self, outcome: Outcome)
        ensures plays { (next : Program) (trace : List Answered) → Plays self.old next trace → Plays self.new next trace }
        ensures waits { waits self.new ≡ None }
        ensures stopped { stopped self.new ≡ Some outcome }
        ensures ended { ended self.new ≡ ended self.old };

    /// The events of its answered calls, in order. Takes no memory; the player isn't used after it.
    fn take_trace(&mut self) -> Trace
        requires { IsTrue (over self.old) }
        ensures { (next : Program) (trace : List Answered) → Plays self.old next trace → result ≡ events_of trace };
}
