//! The names in a text, in lower case.

ghost use Rattle.std.specs.Prelude.{◌≡◌, ◌<◌, ◌∷◌, [], length, IfOk, IfSome, MatchOption, position};
ghost use Rattle.std.specs.List.{slice_split};
ghost use Rattle.std.specs.Str.{str_to_ascii_lowercase};
ghost use Rattle.vary_rules.specs.Rules as spec;

use crate::fault::RuleFault;
use cache_types::{Octets, is_header_name};
use std::alloc::{AllocError, Global};

fn is_gap(byte: u8) -> bool
    ensures { result ≡ spec.is_gap byte }
{
    byte == 32 || byte == 44
}

fn first_gap(text: &[u8]) -> Option<usize>
    ensures place { result ≡ position spec.is_gap text.now }
    ensures within { IfSome result (λ place. place < length text.now) }
{
    text.iter().position(|byte| is_gap(*byte))
}

/// What stands before and after the first space or comma, if there is one.
fn cut(text: &[u8]) -> Option<(&[u8], &[u8])>
    ensures parts { MatchOption result (slice_split spec.is_gap text.now ≡ text.now ∷ []) (λ pair. slice_split spec.is_gap text.now ≡ pair.0.now ∷ slice_split spec.is_gap pair.1.now) }
    ensures shorter { IfSome result (λ pair. length pair.1.now < length text.now) }
{
    match first_gap(text) {
        Some(place) => Some((&text[..place], &text[place + 1..])),
        None => None,
    }
}

fn lowered(alloc: Global, word: &[u8]) -> Result<Octets, AllocError>
    ensures { IfOk result (λ name. name ≡ str_to_ascii_lowercase word.now) }
{
    let bytes: Vec<u8> = word
        .iter()
        .map(|byte| byte.to_ascii_lowercase())
        .collect(alloc)?;
    Octets::from_vec(bytes)
}

/// These names, and that of the word; no word has none.
fn with_word(alloc: Global, names: Vec<Octets>, word: &[u8]) -> Result<Vec<Octets>, RuleFault>
    ensures { spec.TellsNames result names.items (word.now ∷ []) }
{
    if word.is_empty() {
        return Ok(names);
    }
    let name = lowered(alloc, word)?;
    if !is_header_name(name.bytes()) {
        return Err(RuleFault::BadName);
    }
    let mut more = names;
    more.push(name)?;
    Ok(more)
}

/// The names in the text, in lower case.
pub fn names_of(alloc: Global, text: &[u8]) -> Result<Vec<Octets>, RuleFault>
    ensures { spec.TellsNames result [] (slice_split spec.is_gap text.now) }
{
    let mut names = Vec::new(alloc);
    let mut rest = text;
    while let Some((word, after)) = cut(rest) {
        match with_word(alloc, names, word) {
            Ok(more) => names = more,
            Err(fault) => return Err(fault),
        }
        rest = after;
    }
    with_word(alloc, names, rest)
}
