//! How a text is read, one line after another.

ghost use Rattle.std.specs.Prelude.{◌≡◌, IfOk};
ghost use Rattle.edge_words.specs.Reading.{Gives};
ghost use Rattle.line_reader.specs.ByLines.{Machine};

use edge_words::LineFault;
use std::alloc::Global;

/// What the lines of a text said so far.
pub trait LineMachine: Drop {
    /// What a whole text says.
    type Value;

    // What the lines said, without where it lies in memory.
    ghost Said: { Type 0 };

    ghost said: { Self → Said };

    // How lines are taken.
    ghost machine: { Machine Said Self.Value };

    // What holds of all that lines can have said.
    ghost Stands: { Said → Type 0 };

    /// What is known before the first line.
    fn start() -> Self
        ensures start { said result ≡ machine.start }
        ensures stands { Stands (said result) };

    /// What the lines said with one more.
    fn next(self, alloc: Global, line: &[u8]) -> Result<Self, LineFault>
        requires stands { Stands (said self) }
        ensures gives { Gives said result (machine.after (said self) line.now) }
        ensures stands { IfOk result (λ next. Stands (said next)) };

    /// The value, where all was said, from what stands behind the last line feed.
    fn finish(self, rest: &[u8]) -> Option<Self::Value>
        ensures { result ≡ machine.finished (said self) rest.now };
}
