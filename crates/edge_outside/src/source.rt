//! What is read from piece by piece, as a connection.
ghost use Rattle.std.specs.Prelude.{◌<◌, ◌≤◌, ℕ, List, Option, Result, IsErr, IfOk, length};
ghost use Rattle.edge_outside.specs.declared.fault.Failed.{Failed};
ghost use Rattle.edge_outside.specs.Faults.{Counts};
ghost use Rattle.edge_outside.specs.Source.{SourceContent, GivesWhereTold, bytes_given};

use crate::Failed;

/// What is read from.
pub trait Source {
    /// A read was made: the source before it, the room, the answer and the source after it.
    ghost reads: { Self → ℕ → Result (List ℕ) Failed → Self → Type 0 };

    /// How many faults there were.
    ghost faults: { Self → ℕ };

    /// The bytes that it still gives, where that is told.
    ghost content: { Self → Option SourceContent };

    /// Fills the front of `into`, and says how many bytes that are. 0 is the end of the input.
    fn read(&mut self, into: &mut [u8]) -> Result<usize, Failed>
        requires { 0 < length into.old }
        ensures within { IfOk result (λ n. n ≤ length into.old) }
        ensures call { reads self.old (length into.old) (bytes_given into.new result) self.new }
        ensures faults { Counts (IsErr result) (faults self.old) (faults self.new) }
        ensures content { GivesWhereTold (content self.old) (length into.old) (bytes_given into.new result) (content self.new) };
}
