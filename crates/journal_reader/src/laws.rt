//! A law of journals: the contract of a function that does nothing.

ghost use Rattle.std.specs.Prelude.{◌≡◌, List, ℕ};
ghost use Rattle.journal_writer.specs.Journal.{journal_bytes};
ghost use Rattle.journal_reader.specs.declared.journal.Journal.{Journal};
ghost use Rattle.journal_reader.specs.Readable.{IsReadable};

/// Bytes spell one journal at most.
pub fn spells_one_journal()
    ensures { (bytes : List ℕ) (one : Journal) (other : Journal) → IsReadable one
        → bytes ≡ journal_bytes one.history one.guests → IsReadable other
        → bytes ≡ journal_bytes other.history other.guests → one ≡ other }
{}
