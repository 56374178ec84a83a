//! The limits that a call keeps, and a line at its place.

ghost use Rattle.std.specs.Prelude.{◌≡◌, ◌+◌, ◌-◌, ◌^◌, length, min, sum_by};
ghost use Rattle.std.specs.List.{list_all};
ghost use Rattle.cache_types.specs.Limits.{is_name, is_surrogate, is_headers, is_surrogates, is_rule_names, is_terms, is_length, is_writing, is_within_limits};
ghost use Rattle.call_lines.specs.Lines.{is_before, keeps_limits};

use cache_types::{
    CacheCall, Field, Fields, Octets, Rule, Terms, Writing, is_cache_key, is_header_name,
    is_surrogate_key,
};
use script_lines::{Line, Named};

/// The headers of a request.
const MOST_HEADERS: usize = 100;

/// The bytes of all surrogate keys of an object, with one more behind each.
const MOST_SURROGATE_BYTES: u64 = 16385;

/// The names of a rule.
const MOST_RULE_NAMES: usize = 32;

/// The bytes of an object's metadata.
const MOST_METADATA: usize = 65536;

/// The bytes that an object may declare.
const MOST_LENGTH: u64 = 67_108_864;

/// The bytes of one piece that is written.
const MOST_PIECE: usize = 65536;

/// The bytes that one read may ask for.
pub const MOST_READ: u32 = 65536;

fn have_names(fields: &[Field]) -> bool
    ensures { result ≡ list_all (λ field. is_name field.name) fields.now }
{
    fields
        .iter()
        .all(|field| is_header_name(field.name.bytes()))
}

fn are_headers(headers: &Fields) -> bool
    ensures { result ≡ is_headers headers.now }
{
    headers.items().len() <= MOST_HEADERS && have_names(headers.items())
}

/// How long the keys are with one space after each, up to the greatest number.
fn spaced_len(keys: &[Octets]) -> u64
    ensures { result ≡ min (sum_by (λ key. length key + 1) keys.now) (2 ^ 64 - 1) }
{
    let mut total: u64 = 0;
    for key in keys {
        total = total
            .saturating_add(key.bytes().len() as u64)
            .saturating_add(1);
    }
    total
}

fn are_surrogate_keys(keys: &[Octets]) -> bool
    ensures { result ≡ list_all is_surrogate keys.now }
{
    keys.iter().all(|key| is_surrogate_key(key.bytes()))
}

fn are_surrogates(keys: &[Octets]) -> bool
    ensures { result ≡ is_surrogates keys.now }
{
    are_surrogate_keys(keys) && spaced_len(keys) <= MOST_SURROGATE_BYTES
}

fn are_names(names: &[Octets]) -> bool
    ensures { result ≡ list_all is_name names.now }
{
    names.iter().all(|name| is_header_name(name.bytes()))
}

fn are_rule_names(rule: &Rule) -> bool
    ensures { result ≡ is_rule_names rule.now }
{
    rule.items().len() <= MOST_RULE_NAMES && are_names(rule.items())
}

fn are_terms(terms: &Terms) -> bool
    ensures { result ≡ is_terms terms.now }
{
    are_surrogates(terms.surrogates.items()) && terms.metadata.bytes().len() <= MOST_METADATA
}

fn is_declared_length(length: Option<u64>) -> bool
    ensures { result ≡ is_length length }
{
    match length {
        None => true,
        Some(length) => length <= MOST_LENGTH,
    }
}

fn is_insertion(writing: &Writing) -> bool
    ensures { result ≡ is_writing writing.now }
{
    are_terms(&writing.terms) && are_rule_names(&writing.rule) && is_declared_length(writing.length)
}

/// The call keeps the limits of keys, headers, texts, pieces and lengths.
pub fn is_limited(call: &CacheCall) -> bool
    ensures { result ≡ is_within_limits call.now }
{
    match call {
        CacheCall::Begin => true,
        CacheCall::Lookup { key, headers } => is_cache_key(key.bytes()) && are_headers(headers),
        CacheCall::TxLookup { key, headers } => is_cache_key(key.bytes()) && are_headers(headers),
        CacheCall::Insert {
            key,
            headers,
            writing,
        } => is_cache_key(key.bytes()) && are_headers(headers) && is_insertion(writing),
        CacheCall::TxInsert { tx: _, writing } => is_insertion(writing),
        CacheCall::TxUpdate { tx: _, terms } => are_terms(terms),
        CacheCall::TxCancel { tx: _ } => true,
        CacheCall::Close { tx: _ } => true,
        CacheCall::Write { object: _, piece } => piece.bytes().len() <= MOST_PIECE,
        CacheCall::Finish { object: _ } => true,
        CacheCall::Abandon { object: _ } => true,
        CacheCall::Read {
            hit: _,
            place: _,
            most,
        } => 1 <= *most && *most <= MOST_READ,
        CacheCall::Purge { key, soft: _ } => is_surrogate_key(key.bytes()),
        CacheCall::End => true,
    }
}

fn names_earlier(named: Named, place: usize) -> bool
    ensures { result ≡ is_before place named }
{
    match named {
        Named::Line(line) => 1 <= line && line < place as u64,
        Named::Nothing => true,
        Named::Number(_) => true,
    }
}

/// The line keeps the limits at this place of its block, counted from 1.
pub fn is_kept(line: &Line, place: usize) -> bool
    ensures { result ≡ keeps_limits place line.now }
{
    is_limited(&line.call) && names_earlier(line.named, place)
}
