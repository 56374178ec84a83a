//! The loop over the lines of a text.

ghost use Rattle.line_reader.specs.ByLines.{told_of, Tells};

use crate::fault::{RunFault, bad_line};
use crate::machine::LineMachine;
use edge_words::{LineFault, cut};
use std::alloc::Global;

/// What the text says by this machine, or its first line that can't follow.
pub fn read_lines<M: LineMachine>(alloc: Global, bytes: &[u8]) -> Result<M::Value, RunFault>
    ensures { Tells result (told_of M.machine bytes.now) }
{
    let mut state = M::start();
    let mut rest = bytes;
    let mut number: usize = 1;
    while let Some((line, after)) = cut(rest, b'\n') {
        match state.next(alloc, line) {
            Ok(next) => state = next,
            Err(LineFault::Bad) => return Err(bad_line(number)),
            Err(LineFault::OutOfMemory) => return Err(RunFault::OutOfMemory),
        }
        rest = after;
        number += 1;
    }
    match state.finish(rest) {
        Some(value) => Ok(value),
        None => Err(bad_line(number)),
    }
}
