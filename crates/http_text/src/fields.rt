//! Headers by their names, and what their values tell.
ghost use Rattle.std.specs.Prelude.{◌≡◌, ◌≤◌, ◌*◌, ◌+◌, min, true, ℕ, List, length, map, option_map, IfOk, All};
ghost use Rattle.std.specs.List.{list_all, list_any};
ghost use Rattle.std.specs.Char.{is_ascii_digit, digit_value};
ghost use Rattle.std.specs.Str.Parse.{digits_value};
ghost use Rattle.httparse.specs.Spans.{IsHeaderWithin, header_bytes};
ghost use Rattle.http_text.specs.Fields.{header_of, count_of, first_of, has_high_byte, is_high_byte, is_digits, same_in_lower_case};

use cache_types::{Field, Fields, Octets};
use httparse::spans::HeaderSpan;
use items::Items;
use std::alloc::{AllocError, Global};

/// The headers that the spans cover, their names in lower case.
pub fn fields_at(alloc: Global, bytes: &[u8], headers: &[HeaderSpan]) -> Result<Fields, AllocError>
    requires { All (IsHeaderWithin (length bytes.now)) headers.now }
    ensures { IfOk result (λ fields. fields ≡ map header_of (map (header_bytes bytes.now) headers.now)) }
{
    let mut fields = Vec::new(alloc);
    for header in headers {
        fields.push(field_at(alloc, bytes, header)?)?;
    }
    Ok(Items::of(fields))
}

fn field_at(alloc: Global, bytes: &[u8], header: &HeaderSpan) -> Result<Field, AllocError>
    requires { IsHeaderWithin (length bytes.now) header.now }
    ensures { IfOk result (λ field. field ≡ header_of (header_bytes bytes.now header.now)) }
{
    let mut name = Vec::from_slice(alloc, header.name.of(bytes))?;
    name.make_ascii_lowercase();
    Ok(Field {
        name: Octets::from_vec(name)?,
        value: Octets::of(alloc, header.value.of(bytes))?,
    })
}

/// How often a name stands.
pub fn count_of(fields: &Fields, name: &[u8]) -> usize
    ensures { result ≡ count_of name.now fields.now }
{
    let mut count = 0;
    for field in fields.items() {
        if field.name.bytes() == name {
            count += 1;
        }
    }
    count
}

/// The value of the first header with this name.
pub fn first_of<'a>(fields: &'a Fields, name: &[u8]) -> Option<&'a [u8]>
    ensures { option_map (λ value. value.now) result ≡ first_of name.now fields.now }
{
    for field in fields.items() {
        if field.name.bytes() == name {
            return Some(field.value.bytes());
        }
    }
    None
}

fn has_high_byte(field: &Field) -> bool
    ensures { result ≡ has_high_byte field.now }
{
    field.value.bytes().iter().any(|byte| *byte > 126)
}

/// Some value has a byte over 7E.
pub fn any_high_byte(fields: &Fields) -> bool
    ensures { result ≡ list_any has_high_byte fields.now }
{
    fields.items().iter().any(|field| has_high_byte(field))
}

/// One digit or more, and nothing else.
pub fn is_digits(text: &[u8]) -> bool
    ensures { result ≡ is_digits text.now }
{
    !text.is_empty() && has_digits(text)
}

fn has_digits(text: &[u8]) -> bool
    ensures { result ≡ list_all is_ascii_digit text.now }
{
    text.iter().all(|byte| byte.is_ascii_digit())
}

/// The two texts differ in case alone.
pub fn same_in_lower_case(a: &[u8], b: &[u8]) -> bool
    ensures { result ≡ same_in_lower_case a.now b.now }
{
    a.eq_ignore_ascii_case(b)
}

/// What the digits tell, or one more than any body has.
#[tactic(auto, using(crate::proofs::Digits::digits_more))]
pub fn length_told(text: &[u8]) -> u64
    requires { list_all is_ascii_digit text.now ≡ true }
    ensures { result ≡ min (digits_value 10 text.now) 67108865 }
{
    let mut value: u64 = 0;
    for byte in text {
        value = next_value(value, *byte);
    }
    value
}

fn next_value(value: u64, byte: u8) -> u64
    requires digit { is_ascii_digit byte ≡ true }
    requires bound { value ≤ 67108865 }
    ensures { result ≡ min (value * 10 + digit_value byte) 67108865 }
{
    (value * 10 + u64::from(byte - b'0')).min(67_108_865)
}
