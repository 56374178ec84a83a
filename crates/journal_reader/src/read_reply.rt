//! Reads the replies of a cache.

ghost use Rattle.std.specs.Prelude.{◌≡◌};
ghost use Rattle.edge_words.specs.Reading.{Gives};
ghost use Rattle.edge_words.specs.Choices.{in_row, made, if_any};
ghost use Rattle.journal_reader.specs.Replies.{hit_in, got_of, got_said, bytes_said, reply_rows, reply_in};

use cache_types::{Hit, Octets, Reply};
use edge_words::{LineFault, Words};
use std::alloc::Global;

/// The greatest number of bits of a lookup.
const MOST_BITS: u64 = 255;

fn hit(alloc: Global, words: Words<'_>) -> Result<Hit, LineFault>
    ensures { Gives (λ hit. hit) result (hit_in words.entry) }
{
    let (object, words) = words.number()?;
    let (age, words) = words.number()?;
    let (max_age, words) = words.number()?;
    let (stale, words) = words.number()?;
    let (length, words) = words.number_or(b"?")?;
    let (metadata, words) = words.hex(alloc)?;
    words.end()?;
    Ok(Hit {
        object,
        age,
        max_age,
        stale,
        length,
        metadata: Octets::from_vec(metadata)?,
    })
}

fn found(alloc: Global, words: Words<'_>) -> Result<Option<Hit>, LineFault>
    ensures { Gives (λ found. found) result (if_any hit_in words.entry) }
{
    if words.is_empty() {
        return Ok(None);
    }
    let hit = hit(alloc, words)?;
    Ok(Some(hit))
}

fn got(alloc: Global, words: Words<'_>) -> Result<Reply, LineFault>
    ensures { Gives (λ reply. reply) result (made got_of got_said words.entry) }
{
    let (bits, words) = words.number_from_to(0, MOST_BITS)?;
    let hit = found(alloc, words)?;
    Ok(Reply::Got {
        bits: bits as u8,
        hit,
    })
}

/// The bytes that the one word left spells.
pub fn bytes(alloc: Global, words: Words<'_>) -> Result<Octets, LineFault>
    ensures { Gives (λ bytes. bytes) result (bytes_said words.entry) }
{
    let (bytes, words) = words.hex(alloc)?;
    words.end()?;
    Ok(Octets::from_vec(bytes)?)
}

fn named(alloc: Global, name: &[u8], words: Words<'_>) -> Result<Reply, LineFault>
    ensures { Gives (λ reply. reply) result (in_row reply_rows name.now words.entry) }
{
    if name == b"begun".as_slice() {
        return words.alone(Reply::Begun);
    }
    if name == b"got".as_slice() {
        return got(alloc, words);
    }
    if name == b"made".as_slice() {
        return words.alone(Reply::Made);
    }
    if name == b"done".as_slice() {
        return words.alone(Reply::Done);
    }
    if name == b"refused".as_slice() {
        return words.alone(Reply::Refused);
    }
    if name == b"short".as_slice() {
        return words.alone(Reply::Short);
    }
    if name == b"toolong".as_slice() {
        return words.alone(Reply::TooLong);
    }
    if name == b"bytes".as_slice() {
        return bytes(alloc, words).map(Reply::Bytes);
    }
    if name == b"ended".as_slice() {
        return words.alone(Reply::Ended);
    }
    if name == b"failed".as_slice() {
        return words.alone(Reply::Failed);
    }
    Err(LineFault::Bad)
}

/// The reply that all words left spell.
pub fn reply(alloc: Global, words: Words<'_>) -> Result<Reply, LineFault>
    ensures { Gives (λ reply. reply) result (reply_in words.entry) }
{
    let (name, words) = words.word()?;
    named(alloc, name, words)
}
