//! Reads numbers that stand by themselves: one, two, one of 32 bits, a list.

ghost use Rattle.std.specs.Prelude.{◌≡◌};
ghost use Rattle.edge_words.specs.Reading.{Gives, one, listed_in, number_in};
ghost use Rattle.journal_reader.specs.Events.{small_in, number_said, numbers_said};

use edge_words::{LineFault, Words, cut, read_number};
use std::alloc::Global;

/// The greatest number of 32 bits.
const MOST_SMALL: u64 = 4_294_967_295;

/// The next word as a number of 32 bits.
pub fn small(words: Words<'_>) -> Result<(u32, Words<'_>), LineFault>
    ensures { Gives (λ read. read) result (one small_in words.entry) }
{
    let (number, words) = words.number_from_to(0, MOST_SMALL)?;
    Ok((number as u32, words))
}

/// The one number left.
pub fn number(words: Words<'_>) -> Result<u64, LineFault>
    ensures { Gives (λ number. number) result (number_said words.entry) }
{
    let (number, words) = words.number()?;
    words.end()?;
    Ok(number)
}

/// The two numbers left.
pub fn numbers(words: Words<'_>) -> Result<(u64, u64), LineFault>
    ensures { Gives (λ numbers. numbers) result (numbers_said words.entry) }
{
    let (first, words) = words.number()?;
    let (second, words) = words.number()?;
    words.end()?;
    Ok((first, second))
}

/// Numbers between commas.
pub fn tickets(alloc: Global, word: &[u8]) -> Result<Vec<u64>, LineFault>
    ensures { Gives (λ tickets. tickets.items) result (listed_in number_in word.now) }
{
    let mut tickets = Vec::new(alloc);
    let mut rest = word;
    while let Some((piece, after)) = cut(rest, b',') {
        match read_number(piece) {
            Some(ticket) => tickets.push(ticket)?,
            None => return Err(LineFault::Bad),
        }
        rest = after;
    }
    match read_number(rest) {
        Some(ticket) => tickets.push(ticket)?,
        None => return Err(LineFault::Bad),
    }
    Ok(tickets)
}
