//! Writes the words of a call.

ghost use Rattle.std.specs.Prelude.{◌≡◌, ◌++◌, ◌∷◌, [], IfOk, codes, decimal, map};
ghost use Rattle.std.specs.List.{flat_map};
ghost use Rattle.edge_words.specs.Words.{spaced, hex_word, after_comma};
ghost use Rattle.call_lines.specs.Calls.{heads, number_words, list_words, metadata_words, length_words, terms_words, writing_words, purge_word, named_number, call_words};

use cache_types::{CacheCall, Field, Octets, Terms, Writing};
use edge_words::Text;
use std::alloc::{AllocError, Global};

fn header(alloc: Global, text: Text, field: &Field) -> Result<Text, AllocError>
    ensures { IfOk result (λ written. written ≡ text ++ flat_map spaced (heads (field.now ∷ []))) }
{
    text.word(b"h=")?
        .plain(field.name.bytes())?
        .plain(b":")?
        .first_hex(alloc, field.value.bytes())
}

fn headers(alloc: Global, text: Text, fields: &[Field]) -> Result<Text, AllocError>
    ensures { IfOk result (λ written. written ≡ text ++ flat_map spaced (heads fields.now)) }
{
    let mut written = text;
    for field in fields {
        written = header(alloc, written, field)?;
    }
    Ok(written)
}

fn number_option(text: Text, prefix: &[u8], number: u64) -> Result<Text, AllocError>
    ensures { IfOk result (λ written. written ≡ text ++ flat_map spaced (number_words prefix.now number)) }
{
    if number == 0 {
        return Ok(text);
    }
    text.word(prefix)?.first_number(number)
}

fn metadata(alloc: Global, text: Text, bytes: &[u8]) -> Result<Text, AllocError>
    ensures { IfOk result (λ written. written ≡ text ++ flat_map spaced (metadata_words bytes.now)) }
{
    if bytes.is_empty() {
        return Ok(text);
    }
    text.word(b"meta=")?.first_hex(alloc, bytes)
}

fn declared_length(text: Text, length: Option<u64>) -> Result<Text, AllocError>
    ensures { IfOk result (λ written. written ≡ text ++ flat_map spaced (length_words length)) }
{
    match length {
        None => Ok(text),
        Some(length) => text.word(b"len=")?.first_number(length),
    }
}

fn more_hex(alloc: Global, text: Text, pieces: &[Octets]) -> Result<Text, AllocError>
    ensures { IfOk result (λ written. written ≡ text ++ flat_map after_comma (map hex_word pieces.now)) }
{
    let mut written = text;
    for piece in pieces {
        written = written.plain(b",")?.first_hex(alloc, piece.bytes())?;
    }
    Ok(written)
}

fn more_names(text: Text, names: &[Octets]) -> Result<Text, AllocError>
    ensures { IfOk result (λ written. written ≡ text ++ flat_map after_comma names.now) }
{
    let mut written = text;
    for name in names {
        written = written.plain(b",")?.plain(name.bytes())?;
    }
    Ok(written)
}

fn surrogates(alloc: Global, text: Text, keys: &[Octets]) -> Result<Text, AllocError>
    ensures { IfOk result (λ written. written ≡ text ++ flat_map spaced (list_words (codes "sur=") (map hex_word keys.now))) }
{
    match keys.split_first() {
        None => Ok(text),
        Some((first, rest)) => {
            let written = text.word(b"sur=")?.first_hex(alloc, first.bytes())?;
            more_hex(alloc, written, rest)
        }
    }
}

fn rule(text: Text, names: &[Octets]) -> Result<Text, AllocError>
    ensures { IfOk result (λ written. written ≡ text ++ flat_map spaced (list_words (codes "vary=") names.now)) }
{
    match names.split_first() {
        None => Ok(text),
        Some((first, rest)) => {
            let written = text.word(b"vary=")?.plain(first.bytes())?;
            more_names(written, rest)
        }
    }
}

fn terms_of(alloc: Global, text: Text, terms: &Terms) -> Result<Text, AllocError>
    ensures { IfOk result (λ written. written ≡ text ++ flat_map spaced (terms_words terms.now)) }
{
    let written = text.word(b"max=")?.first_number(terms.max_age)?;
    let written = number_option(written, b"age=", terms.initial_age)?;
    let written = number_option(written, b"swr=", terms.stale)?;
    let written = surrogates(alloc, written, terms.surrogates.items())?;
    metadata(alloc, written, terms.metadata.bytes())
}

fn writing_of(alloc: Global, text: Text, writing: &Writing) -> Result<Text, AllocError>
    ensures { IfOk result (λ written. written ≡ text ++ flat_map spaced (writing_words writing.now)) }
{
    let written = terms_of(alloc, text, &writing.terms)?;
    let written = rule(written, writing.rule.items())?;
    declared_length(written, writing.length)
}

fn purge_kind(soft: bool) -> &'static [u8]
    ensures { result.now ≡ purge_word soft }
{
    if soft { b"soft" } else { b"hard" }
}

/// The words of a call after a space, with the number of the entry that it names.
pub fn write_call(alloc: Global, text: Text, call: &CacheCall) -> Result<Text, AllocError>
    ensures { IfOk result (λ written. written ≡ text ++ flat_map spaced (call_words (decimal (named_number call.now)) call.now)) }
{
    match call {
        CacheCall::Begin => text.word(b"begin"),
        CacheCall::Lookup {
            key,
            headers: fields,
        } => {
            let written = text.word(b"lookup")?.hex(alloc, key.bytes())?;
            headers(alloc, written, fields.items())
        }
        CacheCall::TxLookup {
            key,
            headers: fields,
        } => {
            let written = text.word(b"txlookup")?.hex(alloc, key.bytes())?;
            headers(alloc, written, fields.items())
        }
        CacheCall::Insert {
            key,
            headers: fields,
            writing,
        } => {
            let written = text.word(b"insert")?.hex(alloc, key.bytes())?;
            let written = writing_of(alloc, written, writing)?;
            headers(alloc, written, fields.items())
        }
        CacheCall::TxInsert { tx, writing } => {
            let written = text.word(b"txinsert")?.number(*tx)?;
            writing_of(alloc, written, writing)
        }
        CacheCall::TxUpdate { tx, terms } => {
            let written = text.word(b"txupdate")?.number(*tx)?;
            terms_of(alloc, written, terms)
        }
        CacheCall::TxCancel { tx } => text.word(b"txcancel")?.number(*tx),
        CacheCall::Close { tx } => text.word(b"close")?.number(*tx),
        CacheCall::Write { object, piece } => {
            text.word(b"write")?
                .number(*object)?
                .hex(alloc, piece.bytes())
        }
        CacheCall::Finish { object } => text.word(b"finish")?.number(*object),
        CacheCall::Abandon { object } => text.word(b"abandon")?.number(*object),
        CacheCall::Read { hit, place, most } => text
            .word(b"read")?
            .number(*hit)?
            .number(*place)?
            .number(u64::from(*most)),
        CacheCall::Purge { key, soft } => {
            text.word(b"purge")?
                .hex(alloc, key.bytes())?
                .word(purge_kind(*soft))
        }
        CacheCall::End => text.word(b"end"),
    }
}
