//! Why no text was read.

ghost use Rattle.std.specs.Prelude.{◌≡◌, min};
ghost use Rattle.line_reader.specs.declared.fault.RunFault.TheVariants as fault;
ghost use Rattle.line_reader.specs.ByLines.{most_line};

use thiserror::Error;

/// Why no text was read.
#[derive(Clone, Copy, Debug, PartialEq, Eq, Error)]
pub enum RunFault {
    /// The first line that can't stand where it stands, counted from 1.
    #[error("run: line {0}")]
    Line(u32),
    #[error("out of memory")]
    OutOfMemory,
}

/// The fault of a line, whose number stands still at the greatest that can be told.
pub fn bad_line(number: usize) -> RunFault
    ensures { result ≡ fault.Line (min number most_line) }
{
    match u32::try_from(number) {
        Ok(number) => RunFault::Line(number),
        Err(_) => RunFault::Line(u32::MAX),
    }
}
