//! The first fault of a whole head, how it tells its body, and the uri that a guest sees.
ghost use Rattle.std.specs.Prelude.{◌≡◌, codes, None, Some, IfOk, IfErr, Ok, Err, ◌≤◌};
ghost use Rattle.http_text.specs.Fields.{most_body};
ghost use Rattle.http_front.specs.Heads.{has_bad_host, has_bad_length, is_bad_head, is_unsupported, is_chunked, stated_length, head_fault, has_scheme, uri_of};

use crate::{FrontFault, Head};
use cache_types::Octets;
use http_text::{
    MOST_BODY, any_high_byte, count_of, first_of, is_digits, length_told, same_in_lower_case,
};
use std::alloc::{AllocError, Global};

fn has_bad_host(head: &Head) -> bool
    ensures { result ≡ has_bad_host head.now }
{
    let count = count_of(&head.fields, b"host");
    count > 1 || head.version == 1 && count == 0
}

fn has_bad_length(head: &Head) -> bool
    ensures { result ≡ has_bad_length head.now }
{
    let bad = match first_of(&head.fields, b"content-length") {
        Some(text) => !is_digits(text),
        None => false,
    };
    let count = count_of(&head.fields, b"content-length");
    count > 1 || bad || count == 1 && count_of(&head.fields, b"transfer-encoding") > 0
}

fn is_bad_head(head: &Head) -> bool
    ensures { result ≡ is_bad_head head.now }
{
    any_high_byte(&head.fields) || has_bad_host(head) || has_bad_length(head)
}

fn is_unsupported(head: &Head) -> bool
    ensures { result ≡ is_unsupported head.now }
{
    let other = match first_of(&head.fields, b"transfer-encoding") {
        Some(text) => !same_in_lower_case(b"chunked", text),
        None => false,
    };
    count_of(&head.fields, b"transfer-encoding") > 1
        || other
        || head.method.bytes() == b"CONNECT".as_slice()
}

/// The body comes in chunks.
pub fn is_chunked(head: &Head) -> bool
    ensures { result ≡ is_chunked head.now }
{
    count_of(&head.fields, b"transfer-encoding") > 0
}

/// The length of the body where it doesn't come in chunks, or the first fault of the head.
pub fn stated_length(head: &Head) -> Result<usize, FrontFault>
    ensures ok { IfOk result (λ n. head_fault head.now ≡ None) }
    ensures length { IfOk result (λ n. n ≡ stated_length head.now) }
    ensures fits { IfOk result (λ n. n ≤ most_body) }
    ensures err { IfErr result (λ fault. head_fault head.now ≡ Some fault) }
{
    if is_bad_head(head) {
        return Err(FrontFault::Bad);
    }
    if is_unsupported(head) {
        return Err(FrontFault::Unsupported);
    }
    let length = match first_of(&head.fields, b"content-length") {
        Some(text) => length_told(text),
        None => 0,
    };
    if length > MOST_BODY as u64 {
        return Err(FrontFault::TooLarge);
    }
    Ok(length as usize)
}

fn has_scheme(target: &[u8]) -> bool
    ensures { result ≡ has_scheme target.now }
{
    target.starts_with(b"http://") || target.starts_with(b"https://")
}

/// What the guest sees as the uri.
pub fn uri_of(alloc: Global, head: &Head) -> Result<Octets, AllocError>
    ensures { IfOk result (λ uri. uri ≡ uri_of head.now) }
{
    let target = head.target.bytes();
    if has_scheme(target) {
        return Octets::of(alloc, target);
    }
    let authority = first_of(&head.fields, b"host").unwrap_or(b"localhost");
    let mut uri = Vec::from_slice(alloc, b"http://")?;
    uri.extend_from_slice(authority)?;
    uri.extend_from_slice(target)?;
    Octets::from_vec(uri)
}
