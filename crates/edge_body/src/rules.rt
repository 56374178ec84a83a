//! The rules of heads, as tests.
ghost use Rattle.std.specs.Prelude.{◌≡◌};
ghost use Rattle.std.specs.List.{list_all};
ghost use Rattle.cache_types.specs.Limits.{is_token_mark, is_name_byte, has_name_bytes};
ghost use Rattle.edge_body.specs.Heads as spec;

use cache_types::{Field, Fields};

/// The most headers that a head has.
const MOST_FIELDS: usize = 100;

/// What a token has besides letters and digits (RFC 9110, section 5.6.2).
fn is_mark(byte: u8) -> bool
    ensures { result ≡ is_token_mark byte }
{
    b"!#$%&'*+-.^_`|~".contains(&byte)
}

fn is_name_byte(byte: u8) -> bool
    ensures { result ≡ is_name_byte byte }
{
    byte.is_ascii_lowercase() || (byte.is_ascii_digit() || is_mark(byte))
}

/// A header's name: a token in lower case.
pub fn is_field_name(name: &[u8]) -> bool
    ensures { result ≡ spec.is_field_name name.now }
{
    !name.is_empty() && has_name_bytes(name)
}

fn has_name_bytes(name: &[u8]) -> bool
    ensures { result ≡ has_name_bytes name.now }
{
    name.iter().all(|byte| is_name_byte(*byte))
}

fn is_value_byte(byte: u8) -> bool
    ensures { result ≡ spec.is_value_byte byte }
{
    !(byte == 0 || (byte == 10 || byte == 13))
}

/// A header's value: neither NUL nor CR nor LF.
pub fn is_field_value(value: &[u8]) -> bool
    ensures { result ≡ spec.is_field_value value.now }
{
    value.iter().all(|byte| is_value_byte(*byte))
}

fn is_field(field: &Field) -> bool
    ensures { result ≡ spec.is_field field.now }
{
    is_field_name(field.name.bytes()) && is_field_value(field.value.bytes())
}

/// Headers that one head can have.
pub fn are_fields(fields: &Fields) -> bool
    ensures { result ≡ spec.are_fields fields.now }
{
    fields.items().len() <= MOST_FIELDS && each_is_field(fields.items())
}

fn each_is_field(fields: &[Field]) -> bool
    ensures { result ≡ list_all spec.is_field fields.now }
{
    fields.iter().all(|field| is_field(field))
}

fn is_uri_byte(byte: u8) -> bool
    ensures { result ≡ spec.is_uri_byte byte }
{
    byte != 0
}

/// A uri: no NUL.
pub fn is_uri(uri: &[u8]) -> bool
    ensures { result ≡ spec.is_uri uri.now }
{
    uri.iter().all(|byte| is_uri_byte(*byte))
}

/// The status of a response that is no interim one: from 200 to 999.
pub fn is_status(status: u16) -> bool
    ensures { result ≡ spec.is_status status }
{
    200 <= status && status <= 999
}
