//! Why a text isn't one request that this host takes.

use crate::spelling::{is_token, number_of};
use crate::text::{quote, show_number};
use std::alloc::AllocError;
use std::fmt::Write;

const MOST_HEAD: usize = 65_536;

const MOST_BODY: u64 = 67_108_864;

/// What the headers of a request tell of its host and its body.
#[derive(Clone, Copy)]
struct Told<'a> {
    headers: usize,
    hosts: usize,
    lengths: usize,
    encodings: usize,
    /// The last value of `content-length`, and of `transfer-encoding`.
    length: &'a [u8],
    encoding: &'a [u8],
    /// The first line that can't be a header.
    odd: Option<&'a [u8]>,
}

/// The text without the line end that it ends with.
fn without_end(line: &[u8]) -> &[u8] {
    let line = line.strip_suffix(b"\n").unwrap_or(line);
    line.strip_suffix(b"\r").unwrap_or(line)
}

/// How many bytes the empty lines before the first line have; they are passed over.
fn blank_len(text: &[u8]) -> usize {
    let mut count = 0usize;
    for line in text.split_inclusive(|byte| *byte == b'\n') {
        if !without_end(line).is_empty() {
            return count;
        }
        count = count.saturating_add(line.len());
    }
    count
}

/// How many bytes the head has, with the empty line that ends it.
fn head_len(text: &[u8]) -> Option<usize> {
    let mut count = 0usize;
    for line in text.split_inclusive(|byte| *byte == b'\n') {
        count = count.saturating_add(line.len());
        if line.ends_with(b"\n") && without_end(line).is_empty() {
            return Some(count);
        }
    }
    None
}

/// A byte that stands in no header's value.
fn has_odd_byte(value: &[u8]) -> bool {
    for byte in value {
        if (*byte < 32 && *byte != b'\t') || *byte > 126 {
            return true;
        }
    }
    false
}

/// The name and the value of a header.
fn parted(line: &[u8]) -> Option<(&[u8], &[u8])> {
    let mut parts = line.splitn(2, |byte| *byte == b':');
    let name = parts.next()?;
    let value = parts.next()?;
    if is_token(name) && !has_odd_byte(value) {
        Some((name, value.trim_ascii()))
    } else {
        None
    }
}

/// What is told with one more header.
fn with_header<'a>(told: Told<'a>, line: &'a [u8]) -> Told<'a> {
    let mut next = told;
    next.headers = told.headers.saturating_add(1);
    let Some((name, value)) = parted(line) else {
        next.odd = told.odd.or(Some(line));
        return next;
    };
    if name.eq_ignore_ascii_case(b"host") {
        next.hosts = told.hosts.saturating_add(1);
    } else if name.eq_ignore_ascii_case(b"content-length") {
        next.lengths = told.lengths.saturating_add(1);
        next.length = value;
    } else if name.eq_ignore_ascii_case(b"transfer-encoding") {
        next.encodings = told.encodings.saturating_add(1);
        next.encoding = value;
    }
    next
}

/// What the headers of a head tell; its first line is passed over.
fn told_in(head: &[u8]) -> Told<'_> {
    let mut told = Told {
        headers: 0,
        hosts: 0,
        lengths: 0,
        encodings: 0,
        length: b"",
        encoding: b"",
        odd: None,
    };
    let mut first = true;
    for line in head.split_inclusive(|byte| *byte == b'\n') {
        let text = without_end(line);
        if !first && !text.is_empty() {
            told = with_header(told, text);
        }
        first = false;
    }
    told
}

/// The bytes can be a request's target.
fn is_target(word: &[u8]) -> bool {
    for byte in word {
        if *byte <= 32 || *byte == 127 {
            return false;
        }
    }
    str::from_utf8(word).is_ok()
}

/// A wrong word of the first line, of which there are three.
fn bad_first_words(
    out: &mut String,
    method: &[u8],
    target: &[u8],
    version: &[u8],
) -> Result<bool, AllocError> {
    if version != b"HTTP/1.1".as_slice() && version != b"HTTP/1.0".as_slice() {
        out.push_str("the first line of a request ends with HTTP/1.1 or HTTP/1.0, not ")?;
        quote(out, version)?;
    } else if !is_token(method) {
        quote(out, method)?;
        out.push_str(" is no method: one has letters, digits and few other signs")?;
    } else if !is_target(target) {
        quote(out, target)?;
        out.push_str(" is no target: one is UTF-8 without control characters")?;
    } else if method == b"CONNECT".as_slice() {
        out.push_str("the method CONNECT isn't served")?;
    } else {
        return Ok(false);
    }
    Ok(true)
}

/// The first line: a method, a target and the version. Answers whether it was wrong.
fn bad_first_line(out: &mut String, line: &[u8]) -> Result<bool, AllocError> {
    let mut words = line.split(|byte| *byte == b' ');
    let method = words.next().unwrap_or(b"");
    let target = words.next().unwrap_or(b"");
    let version = words.next().unwrap_or(b"");
    if method.is_empty() || target.is_empty() || version.is_empty() || words.next().is_some() {
        out.push_str(
            "the first line of a request is METHOD TARGET HTTP/1.1, with one space between two of them, not ",
        )?;
        quote(out, line)?;
        return Ok(true);
    }
    bad_first_words(out, method, target, version)
}

/// What is wrong with the headers that tell of the body. Answers whether something was.
fn bad_body_headers(out: &mut String, told: &Told<'_>) -> Result<bool, AllocError> {
    if told.lengths > 1 {
        out.push_str("the request has more than one header `content-length`")?;
    } else if told.lengths == 1 && told.encodings > 0 {
        out.push_str(
            "the request has `content-length` and `transfer-encoding`; a body has one of them",
        )?;
    } else if told.encodings > 1 {
        out.push_str("the request has more than one header `transfer-encoding`")?;
    } else if told.encodings == 1 && !told.encoding.eq_ignore_ascii_case(b"chunked") {
        out.push_str("the one `transfer-encoding` that is taken is `chunked`, not ")?;
        quote(out, told.encoding)?;
    } else {
        return Ok(false);
    }
    Ok(true)
}

/// What is wrong with the headers. Answers whether something was.
fn bad_headers(out: &mut String, told: &Told<'_>, is_newer: bool) -> Result<bool, AllocError> {
    if let Some(line) = told.odd {
        quote(out, line)?;
        out.push_str(
            " is no header: one is a name, a colon right behind it, and a value of printable ASCII",
        )?;
    } else if told.headers > 100 {
        let count = told.headers;
        write!(out, "the request has {count} headers; it can have 100")?;
    } else if told.hosts > 1 {
        out.push_str("the request has more than one header `host`")?;
    } else if told.hosts == 0 && is_newer {
        out.push_str("a request of HTTP/1.1 has a header `host`, and this one has none")?;
    } else {
        return bad_body_headers(out, told);
    }
    Ok(true)
}

/// The bytes begin with the first line of a request.
fn begins_request(bytes: &[u8]) -> bool {
    let mut lines = bytes.split_inclusive(|byte| *byte == b'\n');
    let first = without_end(lines.next().unwrap_or(b""));
    first.ends_with(b" HTTP/1.1") || first.ends_with(b" HTTP/1.0")
}

/// How many bytes the body has.
fn body_has(out: &mut String, body: &[u8]) -> Result<(), AllocError> {
    out.push_str("the body has ")?;
    show_number(out, body.len() as u64)?;
    out.push_str(if body.len() == 1 { " byte" } else { " bytes" })
}

/// The head tells of no body.
fn unstated_hint(out: &mut String, body: &[u8]) -> Result<(), AllocError> {
    if body.is_empty() {
        return out.push_str("the bytes aren't one request of HTTP/1.1 or HTTP/1.0");
    }
    if begins_request(body) {
        return out.push_str("behind the request stands another one; each has a line of its own");
    }
    body_has(out, body)?;
    out.push_str(", and no header `content-length` tells of it")
}

/// What is wrong with a body that has a length.
fn stated_hint(out: &mut String, length: &[u8], body: &[u8]) -> Result<(), AllocError> {
    let Some(count) = number_of(length) else {
        out.push_str(
            "`content-length` is a number of decimal digits, and not above 67,108,864: not ",
        )?;
        return quote(out, length);
    };
    if count > MOST_BODY {
        return out.push_str("the body of a request can have 67,108,864 bytes");
    }
    body_has(out, body)?;
    out.push_str(", and `content-length` says ")?;
    show_number(out, count)
}

/// The hint for a head with these parts and this body, which together aren't one request.
fn parts_hint(out: &mut String, head: &[u8], body: &[u8]) -> Result<(), AllocError> {
    let mut lines = head.split_inclusive(|byte| *byte == b'\n');
    let first = without_end(lines.next().unwrap_or(b""));
    let told = told_in(head);
    if bad_first_line(out, first)? || bad_headers(out, &told, first.ends_with(b"1"))? {
        return Ok(());
    }
    if told.encodings == 1 {
        return out.push_str(
            "the body isn't in chunks: a chunk is its size in hexadecimal digits, 0d0a, its bytes and 0d0a; behind the last one comes 300d0a0d0a, and then nothing",
        );
    }
    if told.lengths == 1 {
        return stated_hint(out, told.length, body);
    }
    unstated_hint(out, body)
}

/// The hint for a text that isn't one request, whole and with nothing behind it.
pub fn request_hint(out: &mut String, text: &[u8]) -> Result<(), AllocError> {
    let blank = blank_len(text);
    let (_, text) = text.split_at(blank.min(text.len()));
    let Some(count) = head_len(text) else {
        return out.push_str(
            "the request's head doesn't end: behind its last header stands an empty line (the hexadecimal of a request without a body ends with 0d0a0d0a)",
        );
    };
    if blank.saturating_add(count) > MOST_HEAD {
        return out.push_str("the head of a request can have 65,536 bytes");
    }
    let (head, body) = text.split_at(count.min(text.len()));
    parts_hint(out, head, body)
}
