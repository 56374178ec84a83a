//! Reads run files.

ghost use Rattle.std.specs.Prelude.{◌≡◌, ◌≤◌, length, IfOk, IfErr, IsOk};
ghost use Rattle.run_files.specs.declared.run.Run.{Run};
ghost use Rattle.run_files.specs.Run.{most_bytes, IsRun, run_text};
ghost use Rattle.run_files.specs.Begins.{IsCause};
ghost use Rattle.line_reader.specs.ByLines.{IsReadAs};

use crate::limits::MOST_BYTES;
use crate::machine::State;
use crate::run::Run;
use line_reader::{RunFault, read_lines};
use std::alloc::Global;

/// The run that the bytes spell: one value has one spelling.
pub fn read_run(alloc: Global, bytes: &[u8]) -> Result<Run, RunFault>
    // What is read is spelled so.
    ensures found { IfOk result (λ run. IsRun run × (bytes.now ≡ run_text run)) }
    ensures size { IsOk result → length bytes.now ≤ most_bytes }

    // What is spelled so is read, unless memory runs out.
    ensures only { (run : Run) → IsRun run → length bytes.now ≤ most_bytes → bytes.now ≡ run_text run → IsReadAs run result }

    // The line that is told is the first that can't stand where it stands.
    ensures line { IfErr result (IsCause bytes.now) }
{
    if bytes.len() > MOST_BYTES {
        return Err(RunFault::Line(1));
    }
    read_lines::<State>(alloc, bytes)
}
