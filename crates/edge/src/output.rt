//! Standard output, or any other writer, as a sink.

ghost use Rattle.std.specs.Prelude.{None, OnOk};
ghost use Rattle.std.specs.Io.KnownBytes.{Appends};

use edge_outside::{Failed, Sink};
use std::io::Write;

/// A writer. What it holds is told where the writer tells it.
#[derive(Drop)]
pub struct Output<W> {
    to: W,
    faults: u64,
}

impl<W: Write> Output<W> {
    pub fn new(to: W) -> Output<W> {
        Output { to, faults: 0 }
    }
}

impl<W: Write> Sink for Output<W> {
    // Where the write is answered with Ok, the writer has the whole piece at its end.
    ghost writes = { λ before piece answer after. OnOk answer (Appends (W.contents before.to) (W.contents after.to) piece) };

    ghost faults = { λ output. output.faults };

    ghost content = { λ output. None };

    fn write(&mut self, bytes: &[u8]) -> Result<(), Failed> {
        let faults = self.faults;
        if self.to.write_all(bytes).is_ok() {
            return Ok(());
        }
        self.faults = faults.saturating_add(1);
        Err(Failed)
    }
}
