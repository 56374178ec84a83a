//! Reads journals.

ghost use Rattle.std.specs.Prelude.{◌≡◌, IfOk, IfErr};
ghost use Rattle.journal_writer.specs.Journal.{journal_bytes, IsJournal};
ghost use Rattle.line_reader.specs.ByLines.{IsReadAs, IsFirstBad};
ghost use Rattle.journal_reader.specs.declared.journal.Journal.{Journal};
ghost use Rattle.journal_reader.specs.Readable.{IsReadable};
ghost use Rattle.journal_reader.specs.Machine.{spell};

use crate::journal::Journal;
use crate::machine::Stage;
use line_reader::{RunFault, read_lines};
use std::alloc::Global;

/// The journal that the bytes spell: one value has one spelling. A journal has no size limit.
pub fn read_journal(alloc: Global, bytes: &[u8]) -> Result<Journal, RunFault>
    // What is read is spelled so, and can be written again.
    ensures found { IfOk result (λ journal. IsReadable journal × (bytes.now ≡ journal_bytes journal.history journal.guests)) }
    ensures writable { IfOk result (λ journal. IsJournal journal.history journal.guests) }

    // What is spelled so is read, unless memory runs out.
    ensures only { (journal : Journal) → IsReadable journal → bytes.now ≡ journal_bytes journal.history journal.guests → IsReadAs journal result }

    // The line that is told is the first that can't stand where it stands.
    ensures line { IfErr result (IsFirstBad IsReadable spell bytes.now) }
{
    read_lines::<Stage>(alloc, bytes)
}
