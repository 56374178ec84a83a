//! Reads batch files.

ghost use Rattle.std.specs.Prelude.{◌≡◌, ◌≤◌, ◌<◌, ◌^◌, length, min, IfOk, IfErr, IsOk};
ghost use Rattle.line_reader.specs.declared.fault.RunFault.TheVariants as fault;
ghost use Rattle.line_reader.specs.ByLines.{IsReadAs, most_line};
ghost use Rattle.run_files.specs.Run.{most_bytes};
ghost use Rattle.batch_files.specs.declared.batch.BatchFile.{BatchFile};
ghost use Rattle.batch_files.specs.Batch.{IsBatchFile};
ghost use Rattle.batch_files.specs.Begins.{IsCause};

use crate::batch::BatchFile;
use crate::machine::{State, batch_of, next_state};
use edge_words::{LineFault, cut};
use line_reader::RunFault;
use play_files::MOST_BYTES;
use std::alloc::Global;

/// The fault of a line. Its number fits, since a file within the size limit has no more lines than bytes.
fn bad_line(number: usize) -> RunFault
    requires { number ≤ most_line }
    ensures { result ≡ fault.Line number }
{
    RunFault::Line(number as u32)
}

/// The batch file that the bytes are.
pub fn read_batch(alloc: Global, bytes: &[u8]) -> Result<BatchFile, RunFault>
    // What is read is spelled so, and each request is that of its text.
    ensures found { IfOk result (IsBatchFile bytes.now) }
    ensures size { IsOk result → length bytes.now ≤ most_bytes }

    // What is spelled so is read, unless memory runs out.
    ensures only { (file : BatchFile) → length bytes.now ≤ most_bytes → IsBatchFile bytes.now file → IsReadAs file result }

    // The line that is told is the first that can't stand where it stands.
    ensures line { IfErr result (IsCause bytes.now) }
{
    if bytes.len() > MOST_BYTES {
        return Err(RunFault::Line(1));
    }
    let mut state = State::Start;
    let mut rest = bytes;
    let mut number: usize = 1;
    while let Some((line, after)) = cut(rest, b'\n') {
        match next_state(alloc, state, line) {
            Ok(next) => state = next,
            Err(LineFault::Bad) => return Err(bad_line(number)),
            Err(LineFault::OutOfMemory) => return Err(RunFault::OutOfMemory),
        }
        rest = after;
        number += 1;
    }
    match batch_of(state, rest) {
        Some(file) => Ok(file),
        None => Err(bad_line(number)),
    }
}
