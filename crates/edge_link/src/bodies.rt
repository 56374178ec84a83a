//! How a response's head tells its body, and the body that the bytes past it give.
ghost use Rattle.std.specs.Prelude.{◌≡◌, ◌≤◌, ℕ, List, [], true, false, codes, length, drop, IfOk, IfSome, Ok, None};
ghost use Rattle.std.specs.Option.{option_map_or};
ghost use Rattle.http_text.specs.Fields.{most_body, first_of, is_digits, same_in_lower_case};
ghost use Rattle.edge_link.specs.Bodies.{has_no_body, states_neither, states_length, states_chunks, stated_length, within_limit, told_of, Gives};
ghost use Rattle.edge_link.specs.declared.bodies.Told.TheVariants.{Counted, Chunks};

use crate::Head;
use cache_types::Octets;
use http_text::{
    AfterChunks, count_of, first_of, is_digits, length_told, same_in_lower_case, take_chunks,
};
use std::alloc::{AllocError, Global};

/// How a head tells its body.
#[derive(Clone, Copy, Debug, PartialEq, Eq)]
pub enum Told {
    /// There is none, whatever the head says.
    Nothing,
    /// It ends with the connection.
    ToEnd,
    /// It has so many bytes.
    Counted(u64),
    /// It comes in chunks.
    Chunks,
    /// In no way that HTTP has.
    Wrong,
}

/// The bytes from a place on.
pub fn after(bytes: &[u8], at: usize) -> &[u8]
    requires { at ≤ length bytes.now }
    ensures { result.now ≡ drop at bytes.now }
{
    &bytes[at..]
}

fn has_no_body(method: &Octets, status: u16) -> bool
    ensures { result ≡ has_no_body method.now status }
{
    method.bytes() == b"HEAD".as_slice() || status == 204 || status == 304
}

fn states_neither(head: &Head) -> bool
    ensures { result ≡ states_neither head.now }
{
    count_of(&head.fields, b"content-length") == 0
        && count_of(&head.fields, b"transfer-encoding") == 0
}

fn has_digits(head: &Head) -> bool
    ensures { result ≡ option_map_or is_digits (first_of (codes "content-length") head.now.fields) false }
{
    match first_of(&head.fields, b"content-length") {
        Some(text) => is_digits(text),
        None => false,
    }
}

fn states_length(head: &Head) -> bool
    ensures { result ≡ states_length head.now }
{
    count_of(&head.fields, b"content-length") == 1
        && count_of(&head.fields, b"transfer-encoding") == 0
        && has_digits(head)
}

fn is_chunked(head: &Head) -> bool
    ensures { result ≡ option_map_or (same_in_lower_case (codes "chunked")) (first_of (codes "transfer-encoding") head.now.fields) false }
{
    match first_of(&head.fields, b"transfer-encoding") {
        Some(text) => same_in_lower_case(b"chunked", text),
        None => false,
    }
}

fn states_chunks(head: &Head) -> bool
    ensures { result ≡ states_chunks head.now }
{
    count_of(&head.fields, b"content-length") == 0
        && count_of(&head.fields, b"transfer-encoding") == 1
        && is_chunked(head)
}

/// The stated length, or one more than any body has.
fn stated_length(head: &Head) -> u64
    requires { states_length head.now ≡ true }
    ensures { Counted result ≡ within_limit (Counted (stated_length head.now)) }
{
    match first_of(&head.fields, b"content-length") {
        Some(text) if is_digits(text) => length_told(text),
        _ => 0,
    }
}

/// How the head of a response to this method tells its body.
pub fn told_of(method: &Octets, head: &Head) -> Told
    ensures { result ≡ within_limit (told_of method.now head.now) }
{
    if has_no_body(method, head.status) {
        return Told::Nothing;
    }
    if states_neither(head) {
        return Told::ToEnd;
    }
    if states_length(head) {
        return Told::Counted(stated_length(head));
    }
    if states_chunks(head) {
        return Told::Chunks;
    }
    Told::Wrong
}

/// The chunked body at the front, or None where there is none.
fn chunked_body(alloc: Global, rest: &[u8]) -> Result<Option<Octets>, AllocError>
    requires { length rest.now ≤ most_body }
    ensures some { IfOk result (λ found. IfSome found (λ body. Gives Chunks rest.now body)) }
    ensures none { result ≡ Ok None → (body : List ℕ) → ¬ (Gives Chunks rest.now body) }
{
    let mut body = Vec::new(alloc);
    let (_, then) = take_chunks(rest, &mut body)?;
    match then {
        AfterChunks::Last(_) => Ok(Some(Octets::from_vec(body)?)),
        AfterChunks::Open => Ok(None),
        AfterChunks::Over => Ok(None),
        AfterChunks::Bad => Ok(None),
    }
}

/// The first bytes, or None where there are fewer.
fn counted_body(alloc: Global, rest: &[u8], count: u64) -> Result<Option<Octets>, AllocError>
    ensures some { IfOk result (λ found. IfSome found (λ body. Gives (Counted count) rest.now body)) }
    ensures none { result ≡ Ok None → (body : List ℕ) → ¬ (Gives (Counted count) rest.now body) }
{
    if count > rest.len() as u64 {
        return Ok(None);
    }
    Ok(Some(Octets::of(alloc, &rest[..count as usize])?))
}

/// The body that is told so, or None where the bytes don't give it.
pub fn body_at(alloc: Global, told: Told, rest: &[u8]) -> Result<Option<Octets>, AllocError>
    requires { length rest.now ≤ most_body }
    ensures some { IfOk result (λ found. IfSome found (λ body. Gives told rest.now body)) }
    ensures none { result ≡ Ok None → (body : List ℕ) → ¬ (Gives told rest.now body) }
{
    match told {
        Told::Nothing => Ok(Some(Octets::of(alloc, b"")?)),
        Told::ToEnd => Ok(Some(Octets::of(alloc, rest)?)),
        Told::Counted(count) => counted_body(alloc, rest, count),
        Told::Chunks => chunked_body(alloc, rest),
        Told::Wrong => Ok(None),
    }
}
