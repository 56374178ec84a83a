//! What is wrong with a word that is to be a number, bytes in hexadecimal, a header's name or a reference.
//!
//! Each function writes a hint and answers true where the word is wrong, and writes nothing where it is right.

use crate::text::{quote, show_hex, show_number};
use std::alloc::AllocError;
use std::fmt::Write;

/// What each byte of a word is to be.
#[derive(Clone, Copy)]
enum Class {
    Digit,
    Hexadecimal,
    LowerHexadecimal,
    NotUpper,
    Name,
    Token,
}

fn is_of(class: Class, byte: u8) -> bool {
    match class {
        Class::Digit => byte.is_ascii_digit(),
        Class::Hexadecimal => byte.is_ascii_hexdigit(),
        Class::LowerHexadecimal => byte.is_ascii_hexdigit() && !byte.is_ascii_uppercase(),
        Class::NotUpper => !byte.is_ascii_uppercase(),
        Class::Name => byte.is_ascii_lowercase()
            || byte.is_ascii_digit()
            || b"!#$%&'*+-.^_`|~".contains(&byte),
        Class::Token => byte.is_ascii_alphanumeric() || b"!#$%&'*+-.^_`|~".contains(&byte),
    }
}

/// Each byte is of the class.
fn are_all(class: Class, word: &[u8]) -> bool {
    for byte in word {
        if !is_of(class, *byte) {
            return false;
        }
    }
    true
}

/// A method, or a header's name in any case.
pub fn is_token(word: &[u8]) -> bool {
    !word.is_empty() && are_all(Class::Token, word)
}

/// Hexadecimal digits, and spaces.
pub fn are_hex_words(words: &[u8]) -> bool {
    words
        .iter()
        .all(|byte| *byte == b' ' || is_of(Class::Hexadecimal, *byte))
}

pub fn begins_with_digit(word: &[u8]) -> bool {
    match word.first() {
        Some(byte) => byte.is_ascii_digit(),
        None => false,
    }
}

/// How many bytes a word in hexadecimal stands for.
pub fn hex_len(word: &[u8]) -> usize {
    if word == b"-".as_slice() {
        0
    } else {
        word.len() / 2
    }
}

fn lower_case(out: &mut String, word: &[u8]) -> Result<(), AllocError> {
    for byte in word.iter().take(90) {
        out.push(char::from(byte.to_ascii_lowercase()))?;
    }
    if word.len() > 90 {
        out.push_str(" ..")?;
    }
    Ok(())
}

/// A word that isn't made of hexadecimal digits.
fn no_digits(out: &mut String, what: &str, word: &[u8]) -> Result<(), AllocError> {
    if word.starts_with(b"0x") {
        return write!(out, "{what} is written without `0x`");
    }
    if word.starts_with(b"\"") || word.starts_with(b"'") {
        return write!(
            out,
            "{what} is hexadecimal, without quotation marks: `hi` is 6869"
        );
    }
    write!(out, "{what} is hexadecimal, two digits a byte; ")?;
    quote(out, word)?;
    out.push_str(" isn't. As text it would be ")?;
    show_hex(out, word, 30)?;
    out.push_str(" (printf TEXT | xxd -p)")
}

/// A word that is to be bytes in hexadecimal.
pub fn bad_hex(out: &mut String, what: &str, word: &[u8]) -> Result<bool, AllocError> {
    if word == b"-".as_slice() {
        return Ok(false);
    }
    if word.is_empty() {
        write!(out, "{what} is missing; no bytes at all are written `-`")?;
        return Ok(true);
    }
    if !are_all(Class::Hexadecimal, word) {
        no_digits(out, what, word)?;
        return Ok(true);
    }
    if !are_all(Class::LowerHexadecimal, word) {
        write!(out, "{what} has upper-case hexadecimal digits; write ")?;
        lower_case(out, word)?;
        return Ok(true);
    }
    if word.len() % 2 != 0 {
        let count = word.len();
        write!(
            out,
            "{what} has an odd number of hexadecimal digits, {count}; each byte has two"
        )?;
        return Ok(true);
    }
    Ok(false)
}

/// The number that decimal digits spell, where it is below 2 to the power of 64.
pub fn number_of(word: &[u8]) -> Option<u64> {
    let mut number: u64 = 0;
    for byte in word {
        if !byte.is_ascii_digit() {
            return None;
        }
        let digit = u64::from(byte.wrapping_sub(b'0'));
        number = number.checked_mul(10)?.checked_add(digit)?;
    }
    if word.is_empty() { None } else { Some(number) }
}

/// Digits with a fraction or a unit of time, as other programs take them.
fn is_like_time(word: &[u8]) -> bool {
    let ends_so = match word.last() {
        Some(b's' | b'm' | b'h') => true,
        _ => word.contains(&b'.'),
    };
    ends_so && begins_with_digit(word)
}

/// A word that isn't made of digits alone.
fn no_number(out: &mut String, what: &str, word: &[u8]) -> Result<(), AllocError> {
    match word.first() {
        None => write!(out, "{what} is missing"),
        Some(b'-') => write!(out, "{what} is a number from 0 on, without a sign"),
        Some(b'+') => write!(out, "{what} is a number without a sign"),
        _ => {
            write!(
                out,
                "{what} is to be a whole number in decimal digits, not "
            )?;
            quote(out, word)?;
            if is_like_time(word) {
                out.push_str(" (times are in nanoseconds, without a unit: 1s is 1000000000)")?;
            }
            Ok(())
        }
    }
}

/// A word that is to be a number.
pub fn bad_number(out: &mut String, what: &str, word: &[u8]) -> Result<bool, AllocError> {
    if word.is_empty() || !are_all(Class::Digit, word) {
        no_number(out, what, word)?;
        return Ok(true);
    }
    if word.len() > 1 && word.first() == Some(&b'0') {
        write!(out, "{what} has a leading zero")?;
        return Ok(true);
    }
    if number_of(word).is_none() {
        write!(
            out,
            "{what} is too large; the greatest number is 18446744073709551615"
        )?;
        return Ok(true);
    }
    Ok(false)
}

/// A number that is to be from `least` to `most`.
pub fn bad_range(
    out: &mut String,
    what: &str,
    word: &[u8],
    least: u64,
    most: u64,
) -> Result<bool, AllocError> {
    if bad_number(out, what, word)? {
        return Ok(true);
    }
    let number = number_of(word).unwrap_or(0);
    if number >= least && number <= most {
        return Ok(false);
    }
    write!(out, "{what} is ")?;
    show_number(out, number)?;
    out.push_str("; it can be ")?;
    show_number(out, least)?;
    out.push_str(" to ")?;
    show_number(out, most)?;
    Ok(true)
}

/// Bytes in hexadecimal of which there are to be from `least` to `most`.
pub fn bad_sized(
    out: &mut String,
    what: &str,
    word: &[u8],
    least: usize,
    most: usize,
) -> Result<bool, AllocError> {
    if word.is_empty() && least > 0 {
        write!(out, "{what} is missing")?;
        return Ok(true);
    }
    if bad_hex(out, what, word)? {
        return Ok(true);
    }
    let count = hex_len(word);
    if count >= least && count <= most {
        return Ok(false);
    }
    write!(out, "{what} has ")?;
    show_number(out, count as u64)?;
    out.push_str(" bytes; it can have ")?;
    show_number(out, least as u64)?;
    out.push_str(" to ")?;
    show_number(out, most as u64)?;
    Ok(true)
}

/// A header's name.
pub fn bad_name(out: &mut String, word: &[u8]) -> Result<bool, AllocError> {
    if word.is_empty() {
        out.push_str("a header's name is missing")?;
        return Ok(true);
    }
    if word.len() > 64 {
        let count = word.len();
        write!(out, "a header's name has {count} bytes; it can have 64")?;
        return Ok(true);
    }
    if !are_all(Class::NotUpper, word) {
        out.push_str("headers' names are in lower case: write ")?;
        lower_case(out, word)?;
        return Ok(true);
    }
    if !are_all(Class::Name, word) {
        out.push_str("no header is named ")?;
        quote(out, word)?;
        return Ok(true);
    }
    Ok(false)
}

/// A reference to an entry, at this place of its block.
pub fn bad_reference(out: &mut String, word: &[u8], place: usize) -> Result<bool, AllocError> {
    let Some((mark, digits)) = word.split_first() else {
        out.push_str(
            "behind the call's name stands `@n`: what the guest's n-th call made or found",
        )?;
        return Ok(true);
    };
    if *mark != b'@' && *mark != b'#' {
        quote(out, word)?;
        out.push_str(
            " is to be `@n`, what this guest's n-th call made or found, or `#n`, the entry n itself",
        )?;
        return Ok(true);
    }
    if bad_number(out, "the number of a reference", digits)? {
        return Ok(true);
    }
    if *mark == b'#' {
        return Ok(false);
    }
    bad_line_reference(out, number_of(digits).unwrap_or(0), place)
}

/// `@n` has to name a line of the same block that stands before this one.
fn bad_line_reference(out: &mut String, named: u64, place: usize) -> Result<bool, AllocError> {
    if named >= 1 && named < place as u64 {
        return Ok(false);
    }
    if named == 0 {
        out.push_str(
            "calls of a guest are counted from 1 (the line `guest` isn't counted), so there is no `@0`",
        )?;
        return Ok(true);
    }
    if place <= 1 {
        write!(
            out,
            "this is the guest's first call (the line `guest` isn't counted), so there is no earlier one that `@{named}` could name"
        )?;
        return Ok(true);
    }
    let last = place.saturating_sub(1);
    write!(
        out,
        "`@{named}` has to name an earlier call of this guest: this one is its call {place}, so `@{last}` is the last that can stand here"
    )?;
    Ok(true)
}
