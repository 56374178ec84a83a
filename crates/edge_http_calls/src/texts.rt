//! Tests of texts that a guest gives, and texts in lower case.
ghost use Rattle.std.specs.Prelude.{◌≡◌, Some, bytes_eq, drop, IfOk};
ghost use Rattle.std.specs.List.{list_all};
ghost use Rattle.cache_types.specs.Limits.{is_token_mark, is_name_byte, has_name_bytes};
ghost use Rattle.edge_http_calls.specs.Texts as spec;

use cache_types::{MOST_NAME, Octets};
use std::alloc::{AllocError, Global};

/// The most bytes of a request's uri.
const MOST_URI: usize = 8_192;

/// What a token has besides letters and digits (RFC 9110, section 5.6.2).
fn is_mark(byte: u8) -> bool
    ensures { result ≡ is_token_mark byte }
{
    b"!#$%&'*+-.^_`|~".contains(&byte)
}

fn is_name_byte(byte: u8) -> bool
    ensures { result ≡ is_name_byte byte }
{
    byte.is_ascii_lowercase() || (byte.is_ascii_digit() || is_mark(byte))
}

fn has_token_bytes(text: &[u8]) -> bool
    ensures { result ≡ has_name_bytes (spec.lowered text.now) }
{
    text.iter()
        .map(|byte| byte.to_ascii_lowercase())
        .all(|byte| is_name_byte(byte))
}

/// A token of at most 64 bytes.
pub fn is_token(text: &[u8]) -> bool
    ensures { result ≡ spec.is_token text.now }
{
    !text.is_empty() && text.len() <= MOST_NAME && has_token_bytes(text)
}

/// The text in lower case.
pub fn lowered(alloc: Global, text: &[u8]) -> Result<Octets, AllocError>
    ensures { IfOk result (λ octets. octets ≡ spec.lowered text.now) }
{
    let items: Vec<u8> = text
        .iter()
        .map(|byte| byte.to_ascii_lowercase())
        .collect(alloc)?;
    Octets::from_vec(items)
}

/// The two texts differ in the case of letters alone.
pub fn same_in_lower_case(a: &[u8], b: &[u8]) -> bool
    ensures { result ≡ bytes_eq (spec.lowered a.now) (spec.lowered b.now) }
{
    a.eq_ignore_ascii_case(b)
}

fn is_text_byte(byte: u8) -> bool
    ensures { result ≡ spec.is_text_byte byte }
{
    !(byte == 0 || (byte == 10 || byte == 13)) && byte <= 126
}

/// A header's value: neither NUL, CR, LF nor a byte over 7E.
pub fn is_text(value: &[u8]) -> bool
    ensures { result ≡ spec.is_text value.now }
{
    value.iter().all(|byte| is_text_byte(*byte))
}

/// Values that may stand in headers.
pub fn are_texts(values: &[Octets]) -> bool
    ensures { result ≡ list_all spec.is_text values.now }
{
    values.iter().all(|value| is_text(value.bytes()))
}

fn is_printing(byte: u8) -> bool
    ensures { result ≡ spec.is_printing byte }
{
    33 <= byte && byte <= 126
}

fn has_printing_bytes(uri: &[u8]) -> bool
    ensures { result ≡ list_all spec.is_printing uri.now }
{
    uri.iter().all(|byte| is_printing(*byte))
}

/// It begins with at least one byte of an authority, behind its scheme.
fn has_authority(uri: &[u8]) -> bool
    ensures { result ≡ spec.has_authority (spec.behind_scheme uri.now) }
{
    if uri.starts_with(b"http://") {
        begins_authority(uri, 7)
    } else {
        uri.starts_with(b"https://") && begins_authority(uri, 8)
    }
}

/// The bytes from an index on begin with a byte of an authority.
fn begins_authority(uri: &[u8], from: usize) -> bool
    ensures { result ≡ spec.has_authority (Some (drop from uri.now)) }
{
    match uri.get(from) {
        Some(byte) => !(*byte == b'/' || (*byte == b'?' || *byte == b'#')),
        None => false,
    }
}

/// A uri that a request may be given.
pub fn is_request_uri(uri: &[u8]) -> bool
    ensures { result ≡ spec.is_request_uri uri.now }
{
    uri.len() <= MOST_URI && (has_printing_bytes(uri) && has_authority(uri))
}

/// The text is empty or its last byte is NUL.
pub fn is_ended(text: &[u8]) -> bool
    ensures { result ≡ spec.is_ended text.now }
{
    text.is_empty() || text[text.len() - 1] == 0
}

/// The values of a text in which each is ended by NUL.
pub fn values_in(alloc: Global, text: &[u8]) -> Result<Vec<Octets>, AllocError>
    ensures { IfOk result (λ values. values.items ≡ spec.values_in text.now) }
{
    let mut values = Vec::new(alloc);
    let mut part = Vec::new(alloc);
    for byte in text {
        if *byte == 0 {
            values.push(Octets::of(alloc, part.as_slice())?)?;
            part.clear();
        } else {
            part.push(*byte)?;
        }
    }
    Ok(values)
}
