//! The options of a call, each behind its prefix, in their order.

ghost use Rattle.std.specs.Prelude.{◌≡◌};
ghost use Rattle.edge_words.specs.Reading.{Gives};
ghost use Rattle.call_lines.specs.Reading as spec;

use crate::pieces::{header, hex_pieces, rule};
use cache_types::{Fields, Items, Octets, OctetsList, Rule, Terms, Writing};
use edge_words::{LineFault, Words, read_hex, read_number};
use std::alloc::Global;

/// The headers that stand next.
pub fn headers(alloc: Global, words: Words<'_>) -> Result<(Fields, Words<'_>), LineFault>
    ensures { Gives (λ read. read) result (spec.heads_in words.entry) }
{
    let mut fields = Vec::new(alloc);
    let mut left = words;
    loop {
        let (found, after) = left.optional(b"h=");
        left = after;
        match found {
            None => return Ok((Items::of(fields), left)),
            Some(text) => match header(alloc, text) {
                Ok(field) => fields.push(field)?,
                Err(fault) => return Err(fault),
            },
        }
    }
}

fn positive(word: &[u8]) -> Option<u64>
    ensures { result ≡ spec.positive_in word.now }
{
    let number = read_number(word)?;
    if 1 <= number { Some(number) } else { None }
}

fn number_option<'a>(words: Words<'a>, prefix: &[u8]) -> Result<(u64, Words<'a>), LineFault>
    ensures { Gives (λ read. read) result (spec.number_option prefix.now words.entry) }
{
    match words.optional(prefix) {
        (None, words) => Ok((0, words)),
        (Some(digits), words) => match positive(digits) {
            Some(number) => Ok((number, words)),
            None => Err(LineFault::Bad),
        },
    }
}

fn surrogates(alloc: Global, words: Words<'_>) -> Result<(OctetsList, Words<'_>), LineFault>
    ensures { Gives (λ read. read) result (spec.surrogates_in words.entry) }
{
    match words.optional(b"sur=") {
        (None, words) => Ok((Items::of(Vec::new(alloc)), words)),
        (Some(text), words) => Ok((Items::of(hex_pieces(alloc, text)?), words)),
    }
}

fn some_bytes(alloc: Global, word: &[u8]) -> Result<Octets, LineFault>
    ensures { Gives (λ bytes. bytes) result (spec.some_bytes_in word.now) }
{
    let bytes = read_hex(alloc, word)?;
    if bytes.is_empty() {
        Err(LineFault::Bad)
    } else {
        Ok(Octets::from_vec(bytes)?)
    }
}

fn metadata(alloc: Global, words: Words<'_>) -> Result<(Octets, Words<'_>), LineFault>
    ensures { Gives (λ read. read) result (spec.metadata_in words.entry) }
{
    match words.optional(b"meta=") {
        (None, words) => Ok((Octets::from_vec(Vec::new(alloc))?, words)),
        (Some(text), words) => Ok((some_bytes(alloc, text)?, words)),
    }
}

/// What may change while an object stands.
pub fn terms(alloc: Global, words: Words<'_>) -> Result<(Terms, Words<'_>), LineFault>
    ensures { Gives (λ read. read) result (spec.terms_in words.entry) }
{
    let (max_age, words) = words.prefixed_number(b"max=")?;
    let (initial_age, words) = number_option(words, b"age=")?;
    let (stale, words) = number_option(words, b"swr=")?;
    let (surrogates, words) = surrogates(alloc, words)?;
    let (metadata, words) = metadata(alloc, words)?;
    let terms = Terms {
        max_age,
        initial_age,
        stale,
        surrogates,
        metadata,
    };
    Ok((terms, words))
}

fn vary(alloc: Global, words: Words<'_>) -> Result<(Rule, Words<'_>), LineFault>
    ensures { Gives (λ read. read) result (spec.rule_in words.entry) }
{
    match words.optional(b"vary=") {
        (None, words) => Ok((Rule::empty(alloc), words)),
        (Some(text), words) => Ok((rule(alloc, text)?, words)),
    }
}

fn declared_length(words: Words<'_>) -> Result<(Option<u64>, Words<'_>), LineFault>
    ensures { Gives (λ read. read) result (spec.length_in words.entry) }
{
    match words.optional(b"len=") {
        (None, words) => Ok((None, words)),
        (Some(digits), words) => match read_number(digits) {
            Some(length) => Ok((Some(length), words)),
            None => Err(LineFault::Bad),
        },
    }
}

/// What an insertion says of its object.
pub fn writing(alloc: Global, words: Words<'_>) -> Result<(Writing, Words<'_>), LineFault>
    ensures { Gives (λ read. read) result (spec.writing_in words.entry) }
{
    let (terms, words) = terms(alloc, words)?;
    let (rule, words) = vary(alloc, words)?;
    let (length, words) = declared_length(words)?;
    let writing = Writing {
        terms,
        rule,
        length,
    };
    Ok((writing, words))
}
