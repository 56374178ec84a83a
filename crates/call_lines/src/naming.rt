//! What stands in a line for the entry that its call names.

ghost use Rattle.std.specs.Prelude.{◌≡◌};
ghost use Rattle.edge_words.specs.Reading.{Gives, one};
ghost use Rattle.call_lines.specs.Lines as spec;
ghost use Rattle.call_lines.specs.Reading.{marked_in, reference_in};

use cache_types::CacheCall;
use edge_words::{LineFault, Words, read_number};
use script_lines::{Line, Named, with_name};

/// How a line spells the entry that its call names.
#[derive(Clone, Copy, Debug, PartialEq, Eq)]
pub enum Naming {
    /// In a run file: `@n` for the entry of an earlier line, `#n` for the number itself. No line begins or ends a guest.
    Marked,
    /// In a journal: the number, with no mark. Guests begin and end.
    Plain,
}

fn marked(word: &[u8]) -> Option<Named>
    ensures { result ≡ marked_in word.now }
{
    let (mark, digits) = word.split_first()?;
    match *mark {
        b'@' => read_number(digits).map(Named::Line),
        b'#' => read_number(digits).map(Named::Number),
        _ => None,
    }
}

fn named(naming: Naming, word: &[u8]) -> Option<Named>
    ensures { result ≡ reference_in naming word.now }
{
    match naming {
        Naming::Marked => marked(word),
        Naming::Plain => read_number(word).map(Named::Number),
    }
}

/// The next word as what stands for an entry.
pub fn reference(naming: Naming, words: Words<'_>) -> Result<(Named, Words<'_>), LineFault>
    ensures { Gives (λ read. read) result (one (reference_in naming) words.entry) }
{
    let (word, words) = words.word()?;
    match named(naming, word) {
        Some(named) => Ok((named, words)),
        None => Err(LineFault::Bad),
    }
}

fn number_of(named: Named) -> u64
    ensures { result ≡ spec.number_of named }
{
    match named {
        Named::Nothing => 0,
        Named::Line(number) => number,
        Named::Number(number) => number,
    }
}

/// The call of a line, with the number that the line names in the place of the entry.
pub fn named_call(line: Line) -> CacheCall
    ensures { result ≡ spec.call_of line }
{
    with_name(number_of(line.named), line.call)
}
