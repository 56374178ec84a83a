//! Writes the entries of a history, one a line.

ghost use Rattle.std.specs.Prelude.{◌≡◌, ◌++◌, IfOk, map};
ghost use Rattle.edge_words.specs.Words.{ended, text_of};
ghost use Rattle.journal_writer.specs.Journal.{entry_text};

use crate::write_reply::reply_of;
use cache_types::Entry;
use call_lines::write_call;
use edge_words::Text;
use std::alloc::{AllocError, Global};

fn entry_line(alloc: Global, text: Text, entry: &Entry) -> Result<Text, AllocError>
    ensures { IfOk result (λ written. written ≡ text ++ ended (entry_text entry.now)) }
{
    let head = text
        .first_number(entry.number)?
        .number(entry.guest)?
        .number(entry.moment)?;
    let asked = write_call(alloc, head, &entry.call)?.word(b"=")?;
    reply_of(alloc, asked, &entry.reply)?.end_line()
}

/// The lines of entries.
pub fn entry_lines(alloc: Global, text: Text, entries: &[Entry]) -> Result<Text, AllocError>
    ensures { IfOk result (λ written. written ≡ text ++ text_of (map entry_text entries.now)) }
{
    let mut written = text;
    for entry in entries {
        written = entry_line(alloc, written, entry)?;
    }
    Ok(written)
}
