//! Reads play files.

ghost use Rattle.std.specs.Prelude.{◌≡◌, ◌≤◌, ◌<◌, ◌^◌, length, min, IfOk, IfErr, IsOk};
ghost use Rattle.line_reader.specs.declared.fault.RunFault.TheVariants as fault;
ghost use Rattle.line_reader.specs.ByLines.{IsReadAs, most_line};
ghost use Rattle.run_files.specs.Run.{most_bytes};
ghost use Rattle.play_files.specs.declared.play.PlayFile.{PlayFile};
ghost use Rattle.play_files.specs.Play.{IsPlayFile};
ghost use Rattle.play_files.specs.Begins.{IsCause};

use crate::limits::MOST_BYTES;
use crate::machine::{State, next_state, play_of};
use crate::play::PlayFile;
use edge_words::{LineFault, cut};
use line_reader::RunFault;
use std::alloc::Global;

/// The fault of a line. Its number fits, since a file within the size limit has no more lines than bytes.
fn bad_line(number: usize) -> RunFault
    requires { number ≤ most_line }
    ensures { result ≡ fault.Line number }
{
    RunFault::Line(number as u32)
}

/// The play file that the bytes are.
pub fn read_play(alloc: Global, bytes: &[u8]) -> Result<PlayFile, RunFault>
    // What is read is spelled so, and each request is that of its text.
    ensures found { IfOk result (IsPlayFile bytes.now) }
    ensures size { IsOk result → length bytes.now ≤ most_bytes }

    // What is spelled so is read, unless memory runs out.
    ensures only { (file : PlayFile) → length bytes.now ≤ most_bytes → IsPlayFile bytes.now file → IsReadAs file result }

    // The line that is told is the first that can't stand where it stands.
    ensures line { IfErr result (IsCause bytes.now) }
{
    if bytes.len() > MOST_BYTES {
        return Err(RunFault::Line(1));
    }
    let mut state = State::Start;
    let mut rest = bytes;
    let mut number: usize = 1;
    while let Some((line, after)) = cut(rest, b'\n') {
        match next_state(alloc, state, line) {
            Ok(next) => state = next,
            Err(LineFault::Bad) => return Err(bad_line(number)),
            Err(LineFault::OutOfMemory) => return Err(RunFault::OutOfMemory),
        }
        rest = after;
        number += 1;
    }
    match play_of(state, rest) {
        Some(file) => Ok(file),
        None => Err(bad_line(number)),
    }
}
