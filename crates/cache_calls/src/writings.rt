//! What a write says of its object, read from the record of its options.
ghost use Rattle.std.specs.Prelude.{◌≡◌, Ok, Err, IsTrue, IfOk, IfErr, IfSome, OnOk, option_copied};
ghost use Rattle.cache_types.specs.Limits.{is_rule_names, is_terms, is_length, is_writing};
ghost use Rattle.edge_abi.specs.Refusals.{Judges};
ghost use Rattle.edge_body.specs.Heads.{are_fields};
ghost use Rattle.cache_calls.specs.Options as spec;

use crate::headers::request_given;
use crate::keys::keys_in;
use crate::options::{length_given, long_at, number_given, text_given, text_ranged};
use cache_types::{Fields, MOST_OBJECT, Octets, Rule, Terms, Writing};
use edge_abi::{Refusal, Status, ranged, unless};
use edge_http_calls::HttpTables;
use std::alloc::Global;
use vary_rules::{RuleFault, read_rule};
use wasm_memory::Memory;

/// The bytes of the record.
const RECORD: u32 = 64;

/// The bits of the mask.
const VARY_RULE: u32 = 4;

const INITIAL_AGE: u32 = 8;

const STALE: u32 = 16;

const SURROGATE_KEYS: u32 = 32;

const LENGTH: u32 = 64;

const USER_METADATA: u32 = 128;

/// The greatest mask: these bits, that of a request, and bit 1.
pub const MOST_MASK: u32 = 255;

/// The most bytes of an object's metadata.
const MOST_METADATA: usize = 65_536;

/// The headers that a write gives. The record, and what it names, lie within the memory then.
pub fn write_options<'a>(
    http: &'a HttpTables,
    memory: &Memory,
    mask: u32,
    q: u32,
) -> Result<Option<&'a Fields>, Refusal>
    ensures ok { IfOk result (λ given. spec.write_options http.now memory.now mask q ≡ Ok (option_copied given)) }
    ensures kept { IfOk result (λ given. IfSome given (λ fields. IsTrue (are_fields fields.now))) }
    ensures inside { OnOk result (spec.IsRecord memory.now mask q) }
    ensures err { IfErr result (λ refusal. spec.write_options http.now memory.now mask q ≡ Err refusal) }
{
    ranged(memory, q, RECORD)?;
    unless(q % 8 == 0, Status::Badalign)?;
    let given = request_given(http, memory, mask, u64::from(q) + 8)?;
    text_ranged(memory, mask, VARY_RULE, q, 12)?;
    text_ranged(memory, mask, SURROGATE_KEYS, q, 40)?;
    text_ranged(memory, mask, USER_METADATA, q, 56)?;
    Ok(given)
}

/// The rule that a text names.
fn rule_in(alloc: Global, text: &[u8]) -> Result<Rule, Refusal>
    ensures asked { Judges (spec.rule_in text.now) result }
    ensures kept { IfOk result (λ rule. IsTrue (is_rule_names rule)) }
{
    match read_rule(alloc, text) {
        Ok(rule) => Ok(rule),
        Err(RuleFault::BadName) => Err(Refusal::Told(Status::Httpinvalid)),
        Err(RuleFault::TooMany) => Err(Refusal::Told(Status::Limitexceeded)),
        Err(RuleFault::OutOfMemory) => Err(Refusal::OutOfMemory),
    }
}

fn has_good_length(length: Option<u64>) -> bool
    ensures { result ≡ is_length length }
{
    match length {
        None => true,
        Some(length) => length <= MOST_OBJECT,
    }
}

/// The terms that a record gives.
fn terms_at(alloc: Global, memory: &Memory, mask: u32, q: u32) -> Result<Terms, Refusal>
    requires { spec.IsRecord memory.now mask q }
    ensures asked { Judges (spec.terms_at memory.now mask q) result }
    ensures kept { IfOk result (λ terms. IsTrue (is_terms terms)) }
{
    let at = u64::from(q);
    let metadata = text_given(memory, mask, USER_METADATA, q, 56);
    unless(metadata.len() <= MOST_METADATA, Status::Limitexceeded)?;
    let surrogates = keys_in(alloc, text_given(memory, mask, SURROGATE_KEYS, q, 40))?;
    Ok(Terms {
        max_age: long_at(memory, at),
        initial_age: number_given(memory, mask, INITIAL_AGE, at + 24),
        stale: number_given(memory, mask, STALE, at + 32),
        surrogates,
        metadata: Octets::of(alloc, metadata)?,
    })
}

/// What a record says of an object.
pub fn writing_at(alloc: Global, memory: &Memory, mask: u32, q: u32) -> Result<Writing, Refusal>
    requires { spec.IsRecord memory.now mask q }
    ensures asked { Judges (spec.writing_at memory.now mask q) result }
    ensures kept { IfOk result (λ writing. IsTrue (is_writing writing)) }
{
    let rule = rule_in(alloc, text_given(memory, mask, VARY_RULE, q, 12))?;
    let length = length_given(memory, mask, LENGTH, u64::from(q) + 48);
    unless(has_good_length(length), Status::Limitexceeded)?;
    let terms = terms_at(alloc, memory, mask, q)?;
    Ok(Writing {
        terms,
        rule,
        length,
    })
}
