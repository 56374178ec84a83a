//! What may be relied on of writing and reading together.

ghost use Rattle.std.specs.Prelude.{◌≡◌, IfOk, IfErr, IsOk};
ghost use Rattle.line_reader.specs.declared.fault.RunFault.TheVariants.{OutOfMemory};
ghost use Rattle.line_reader.specs.ByLines.{IsReadAs, IsFirstBad};
ghost use Rattle.journal_reader.specs.Readable.{IsReadable, IsSpelled};
ghost use Rattle.journal_reader.specs.Machine.{spell};

use cache_types::{Done, History, Octets};
use journal_reader::{Journal, read_journal};
use journal_writer::journal_text;
use line_reader::RunFault;
use std::alloc::Global;

/// What is written is read back as it was, unless memory runs out.
pub fn written_and_read(
    alloc: Global,
    history: &History,
    guests: &[Done],
) -> Result<Journal, RunFault>
    requires { IsReadable (record { history = history.now; guests = guests.now }) }
    ensures value { IfOk result (λ journal. (journal.history ≡ history.now) × (journal.guests ≡ guests.now)) }
    ensures fault { IfErr result (λ fault. fault ≡ OutOfMemory) }
{
    match journal_text(alloc, history, guests) {
        Ok(text) => read_journal(alloc, text.bytes()),
        Err(_) => Err(RunFault::OutOfMemory),
    }
}

/// What is read is written again as it stood.
pub fn read_and_written(alloc: Global, bytes: &[u8]) -> Result<Octets, RunFault>
    // Only a journal is written, as it stood.
    ensures found { IsOk result → IsSpelled bytes.now }
    ensures same { IfOk result (λ text. text ≡ bytes.now) }

    // A journal is written, unless memory runs out.
    ensures only { IsSpelled bytes.now → IsReadAs bytes.now result }

    // The line that is told is the first that can't stand where it stands.
    ensures line { IfErr result (IsFirstBad IsReadable spell bytes.now) }
{
    let journal = read_journal(alloc, bytes)?;
    match journal_text(alloc, &journal.history, journal.guests.items()) {
        Ok(text) => Ok(text),
        Err(_) => Err(RunFault::OutOfMemory),
    }
}
