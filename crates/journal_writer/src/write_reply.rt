//! Writes the replies of a cache.

ghost use Rattle.std.specs.Prelude.{◌≡◌, ◌++◌, Some, IfOk};
ghost use Rattle.std.specs.List.{flat_map};
ghost use Rattle.edge_words.specs.Words.{spaced};
ghost use Rattle.journal_writer.specs.Journal.{length_word, hit_words, reply_words};

use cache_types::{Hit, Reply};
use edge_words::Text;
use std::alloc::{AllocError, Global};

fn known_length(text: Text, length: Option<u64>) -> Result<Text, AllocError>
    ensures { IfOk result (λ written. written ≡ text ++ spaced (length_word length)) }
{
    match length {
        None => text.word(b"?"),
        Some(length) => text.number(length),
    }
}

fn hit_of(alloc: Global, text: Text, hit: &Hit) -> Result<Text, AllocError>
    ensures { IfOk result (λ written. written ≡ text ++ flat_map spaced (hit_words (Some hit.now))) }
{
    let written = text
        .number(hit.object)?
        .number(hit.age)?
        .number(hit.max_age)?
        .number(hit.stale)?;
    known_length(written, hit.length)?.hex(alloc, hit.metadata.bytes())
}

/// The words of a reply after a space.
pub fn reply_of(alloc: Global, text: Text, reply: &Reply) -> Result<Text, AllocError>
    ensures { IfOk result (λ written. written ≡ text ++ flat_map spaced (reply_words reply.now)) }
{
    match reply {
        Reply::Begun => text.word(b"begun"),
        Reply::Got { bits, hit: None } => text.word(b"got")?.number(u64::from(*bits)),
        Reply::Got {
            bits,
            hit: Some(hit),
        } => {
            let written = text.word(b"got")?.number(u64::from(*bits))?;
            hit_of(alloc, written, hit)
        }
        Reply::NotYet => Ok(text),
        Reply::Made => text.word(b"made"),
        Reply::Done => text.word(b"done"),
        Reply::Refused => text.word(b"refused"),
        Reply::Short => text.word(b"short"),
        Reply::TooLong => text.word(b"toolong"),
        Reply::Bytes(bytes) => text.word(b"bytes")?.hex(alloc, bytes.bytes()),
        Reply::Ended => text.word(b"ended"),
        Reply::Failed => text.word(b"failed"),
    }
}
