//! Writes a journal: the entries, and a block for each guest.

ghost use Rattle.std.specs.Prelude.{◌≡◌, ◌++◌, ◌∷◌, [], IfOk, codes, decimal};
ghost use Rattle.std.specs.List.{flat_map};
ghost use Rattle.edge_words.specs.Words.{line_of, ended, text_of};
ghost use Rattle.journal_writer.specs.Journal.{guest_text, over_text, done_lines, journal_bytes, IsJournal};

use crate::write_entry::entry_lines;
use crate::write_event::event_lines;
use crate::write_outcome::outcome;
use cache_types::{Done, Entry, History, Octets};
use edge_words::Text;
use std::alloc::{AllocError, Global};

fn guest_line(text: Text, done: &Done) -> Result<Text, AllocError>
    ensures { IfOk result (λ written. written ≡ text ++ ended (guest_text done.now)) }
{
    text.plain(b"guest")?
        .number(done.index)?
        .number(done.guest)?
        .end_line()
}

fn over_line(text: Text, done: &Done) -> Result<Text, AllocError>
    ensures { IfOk result (λ written. written ≡ text ++ ended (over_text done.now)) }
{
    outcome(text.plain(b"over")?, done.outcome)?.end_line()
}

fn block(alloc: Global, text: Text, done: &Done) -> Result<Text, AllocError>
    ensures { IfOk result (λ written. written ≡ text ++ text_of (done_lines done.now)) }
{
    let opened = guest_line(text, done)?;
    let told = event_lines(alloc, opened, done.trace.items())?;
    over_line(told, done)
}

fn blocks(alloc: Global, text: Text, guests: &[Done]) -> Result<Text, AllocError>
    ensures { IfOk result (λ written. written ≡ text ++ text_of (flat_map done_lines guests.now)) }
{
    let mut written = text;
    for done in guests {
        written = block(alloc, written, done)?;
    }
    Ok(written)
}

fn end_line_of(text: Text, entries: usize) -> Result<Text, AllocError>
    ensures { IfOk result (λ written. written ≡ text ++ ended (line_of (codes "end" ∷ (decimal entries ∷ [])))) }
{
    text.plain(b"end")?.number(entries as u64)?.end_line()
}

fn journal(alloc: Global, entries: &[Entry], guests: &[Done]) -> Result<Text, AllocError>
    ensures { IfOk result (λ written. written ≡ journal_bytes entries.now guests.now) }
{
    let head = Text::new(alloc).plain(b"edge-journal 1")?.end_line()?;
    let told = entry_lines(alloc, head, entries)?;
    let ended = blocks(alloc, told, guests)?;
    end_line_of(ended, entries.len())
}

/// The one spelling of a history and of its guests' blocks, which stand by rising indexes. No entry's reply is NotYet, each
/// call keeps the limits, and each other event has a reply of its call's kind.
pub fn journal_text(alloc: Global, history: &History, guests: &[Done]) -> Result<Octets, AllocError>
    requires { IsJournal history.now guests.now }
    ensures { IfOk result (λ text. text ≡ journal_bytes history.now guests.now) }
{
    let text = journal(alloc, history.entries(), guests)?;
    Octets::from_vec(text.into_bytes())
}
