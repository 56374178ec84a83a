//! Values inside one word: headers, lists between commas, rules.

ghost use Rattle.std.specs.Prelude.{◌≡◌, IfSome, IsTrue};
ghost use Rattle.std.specs.Option.{option_map};
ghost use Rattle.std.specs.List.{list_all};
ghost use Rattle.std.specs.Ordering.{nat_cmp, is_lt};
ghost use Rattle.std.specs.Cmp.Lexicographic.{slice_cmp};
ghost use Rattle.cache_types.specs.Rule.{is_lower_byte, rises, is_rule};
ghost use Rattle.edge_words.specs.Reading.{Gives, parts_at, listed_in, hex_in};
ghost use Rattle.call_lines.specs.Reading.{two, name_in, field_in, rule_of};

use cache_types::{Field, Octets, Rule, is_header_name};
use edge_words::{LineFault, cut, read_hex};
use std::alloc::Global;

/// What stands before and after the one byte `at`.
fn halves(text: &[u8], at: u8) -> Option<(&[u8], &[u8])>
    ensures { option_map (λ halves. (halves.0.now, halves.1.now)) result ≡ two (parts_at at text.now) }
{
    let (front, back) = cut(text, at)?;
    match cut(back, at) {
        None => Some((front, back)),
        Some(_) => None,
    }
}

fn header_name(alloc: Global, text: &[u8]) -> Result<Octets, LineFault>
    ensures { Gives (λ name. name) result (name_in text.now) }
{
    if is_header_name(text) {
        Ok(Octets::of(alloc, text)?)
    } else {
        Err(LineFault::Bad)
    }
}

/// A header: its name, a colon, and its value in hexadecimal.
pub fn header(alloc: Global, text: &[u8]) -> Result<Field, LineFault>
    ensures { Gives (λ field. field) result (field_in text.now) }
{
    let Some((name, value)) = halves(text, b':') else {
        return Err(LineFault::Bad);
    };
    let name = header_name(alloc, name)?;
    let value = read_hex(alloc, value)?;
    Ok(Field {
        name,
        value: Octets::from_vec(value)?,
    })
}

/// Pieces in hexadecimal between commas.
pub fn hex_pieces(alloc: Global, text: &[u8]) -> Result<Vec<Octets>, LineFault>
    ensures { Gives (λ pieces. pieces.items) result (listed_in hex_in text.now) }
{
    let mut pieces = Vec::new(alloc);
    let mut rest = text;
    while let Some((piece, after)) = cut(rest, b',') {
        pieces.push(Octets::from_vec(read_hex(alloc, piece)?)?)?;
        rest = after;
    }
    pieces.push(Octets::from_vec(read_hex(alloc, rest)?)?)?;
    Ok(pieces)
}

/// Names of headers between commas.
fn names(alloc: Global, text: &[u8]) -> Result<Vec<Octets>, LineFault>
    ensures { Gives (λ names. names.items) result (listed_in name_in text.now) }
{
    let mut names = Vec::new(alloc);
    let mut rest = text;
    while let Some((name, after)) = cut(rest, b',') {
        names.push(header_name(alloc, name)?)?;
        rest = after;
    }
    names.push(header_name(alloc, rest)?)?;
    Ok(names)
}

fn is_below(name: &Octets, next: &Octets) -> bool
    ensures { result ≡ is_lt (slice_cmp nat_cmp name.now next.now) }
{
    name.bytes().cmp(next.bytes()).is_lt()
}

fn rise(names: &[Octets]) -> bool
    ensures { result ≡ rises names.now }
{
    let Some((first, rest)) = names.split_first() else {
        return true;
    };
    let mut last = first;
    let mut left = rest;
    while let Some((next, after)) = left.split_first() {
        if !is_below(last, next) {
            return false;
        }
        last = next;
        left = after;
    }
    true
}

fn has_lower_bytes(name: &[u8]) -> bool
    ensures { result ≡ list_all is_lower_byte name.now }
{
    name.iter().all(|byte| !byte.is_ascii_uppercase())
}

fn are_lower(names: &[Octets]) -> bool
    ensures { result ≡ list_all (λ name. list_all is_lower_byte name) names.now }
{
    names.iter().all(|name| has_lower_bytes(name.bytes()))
}

fn make_rule(names: &[Octets]) -> bool
    ensures { result ≡ is_rule names.now }
{
    rise(names) && are_lower(names)
}

/// The names of a rule between commas.
pub fn rule(alloc: Global, text: &[u8]) -> Result<Rule, LineFault>
    ensures { Gives (λ rule. rule) result (rule_of text.now) }
{
    let names = names(alloc, text)?;
    if make_rule(&names) {
        Ok(Rule::of(names))
    } else {
        Err(LineFault::Bad)
    }
}
