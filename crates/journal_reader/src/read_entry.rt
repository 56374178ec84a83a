//! Reads the entries of a history.

ghost use Rattle.std.specs.Prelude.{◌≡◌};
ghost use Rattle.edge_words.specs.Reading.{Gives};
ghost use Rattle.journal_reader.specs.Entries.{entry_in};

use crate::read_reply::reply;
use cache_types::Entry;
use call_lines::read_call;
use edge_words::{LineFault, Words};
use std::alloc::Global;

/// The entry that all words spell.
pub fn entry(alloc: Global, words: Words<'_>) -> Result<Entry, LineFault>
    ensures { Gives (λ entry. entry) result (entry_in words.entry) }
{
    let (number, words) = words.number()?;
    let (guest, words) = words.number()?;
    let (moment, words) = words.number()?;
    let (call, words) = read_call(alloc, words)?;
    let reply = reply(alloc, words.exactly(b"=")?)?;
    Ok(Entry {
        number,
        guest,
        moment,
        call,
        reply,
    })
}
