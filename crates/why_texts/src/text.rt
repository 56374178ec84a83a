//! Bytes as people read them, and words that are nearly another word.

use std::alloc::AllocError;
use std::fmt::Write;

/// The longest part of a line that is shown.
const SHOWN: usize = 90;

fn is_printable(byte: u8) -> bool {
    byte >= 32 && byte <= 126
}

fn show_byte(out: &mut String, byte: u8) -> Result<(), AllocError> {
    if is_printable(byte) {
        out.push(char::from(byte))
    } else {
        write!(out, "\\x{byte:02x}")
    }
}

/// Printable ASCII as it is and every other byte as `\xNN`, between back quotes; a long text is cut.
pub fn quote(out: &mut String, bytes: &[u8]) -> Result<(), AllocError> {
    out.push('`')?;
    for byte in bytes.iter().take(SHOWN) {
        show_byte(out, *byte)?;
    }
    if bytes.len() > SHOWN {
        out.push_str(" ..")?;
    }
    out.push('`')
}

/// The bytes in hexadecimal, up to so many.
pub fn show_hex(out: &mut String, bytes: &[u8], most: usize) -> Result<(), AllocError> {
    for byte in bytes.iter().take(most) {
        write!(out, "{byte:02x}")?;
    }
    if bytes.len() > most {
        out.push_str("..")?;
    }
    Ok(())
}

/// A number with a comma before each three digits.
pub fn show_number(out: &mut String, number: u64) -> Result<(), AllocError> {
    if number >= 1_000_000_000 {
        return write!(out, "{number}");
    }
    let millions = number / 1_000_000;
    let thousands = number / 1000 % 1000;
    let ones = number % 1000;
    if millions > 0 {
        write!(out, "{millions},{thousands:03},{ones:03}")
    } else if thousands > 0 {
        write!(out, "{thousands},{ones:03}")
    } else {
        write!(out, "{ones}")
    }
}

/// The bytes are printable text.
pub fn is_text(bytes: &[u8]) -> bool {
    for byte in bytes {
        if !is_printable(*byte) {
            return false;
        }
    }
    !bytes.is_empty()
}

/// Bytes as text between quotation marks where they are text, else in hexadecimal.
pub fn show_value(out: &mut String, bytes: &[u8], most: usize) -> Result<(), AllocError> {
    if !is_text(bytes) {
        return show_hex(out, bytes, most);
    }
    out.push('"')?;
    for byte in bytes.iter().take(most) {
        show_byte(out, *byte)?;
    }
    if bytes.len() > most {
        out.push_str("..")?;
    }
    out.push('"')
}

/// How many letters two words share from their fronts on, whatever their case.
fn same_front(one: &[u8], other: &[u8]) -> usize {
    let mut count = 0usize;
    for byte in one {
        match other.get(count) {
            Some(there) if there.eq_ignore_ascii_case(byte) => count = count.saturating_add(1),
            _ => return count,
        }
    }
    count
}

/// The same from their ends on.
fn same_back(one: &[u8], other: &[u8]) -> usize {
    let mut count = 0usize;
    for byte in one.iter().rev() {
        let place = other.len().wrapping_sub(count).wrapping_sub(1);
        match other.get(place) {
            Some(there) if there.eq_ignore_ascii_case(byte) => count = count.saturating_add(1),
            _ => return count,
        }
    }
    count
}

/// How many letters of the longer word are left between what two words share at their fronts and at their ends.
fn distance(one: &[u8], other: &[u8]) -> usize {
    let shared = same_front(one, other).saturating_add(same_back(one, other));
    one.len().max(other.len()).saturating_sub(shared)
}

/// The word of the list that is nearest, where one is near.
pub fn nearest(word: &[u8], known: &[&'static str]) -> Option<&'static str> {
    let mut best = None;
    let mut least = word.len().min(3);
    for candidate in known {
        let far = distance(word, candidate.as_bytes());
        if far < least || (far == least && best.is_none() && far < 3) {
            best = Some(*candidate);
            least = far;
        }
    }
    best
}
