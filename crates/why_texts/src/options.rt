//! The options of a call: `max=10 age=1 swr=5 sur=6b meta=61 vary=a len=2 h=a:6b`, in this order.

use crate::spelling::{bad_name, bad_range, bad_sized, hex_len};
use crate::text::{nearest, quote, show_number};
use std::alloc::AllocError;
use std::fmt::Write;

/// Which options a call takes. A call that takes any of the second kind takes those of the first.
#[derive(Clone, Copy)]
pub struct Taken {
    /// `max`, `age`, `swr`, `sur`, `meta`.
    pub sets: bool,
    /// `vary`, `len`.
    pub opts: bool,
    /// `h`.
    pub heads: bool,
}

/// The options' names in their order.
const NAMES: [&str; 8] = ["max", "age", "swr", "sur", "meta", "vary", "len", "h"];

const MOST: u64 = 18_446_744_073_709_551_615;

/// The place of an option in the order, from 1.
fn rank_of(name: &[u8]) -> Option<usize> {
    let mut rank = 0usize;
    for known in NAMES {
        rank = rank.saturating_add(1);
        if known.as_bytes() == name {
            return Some(rank);
        }
    }
    None
}

fn is_taken(taken: Taken, rank: usize) -> bool {
    match rank {
        0..=5 => taken.sets,
        6 | 7 => taken.opts,
        _ => taken.heads,
    }
}

/// The name and the value of a word `name=value`.
fn parted(word: &[u8]) -> Option<(&[u8], &[u8])> {
    let mut name = 0usize;
    for byte in word {
        if *byte == b'=' {
            let (name, rest) = word.split_at_checked(name)?;
            let (_, value) = rest.split_first()?;
            return Some((name, value));
        }
        name = name.saturating_add(1);
    }
    None
}

/// One surrogate key after another; together they have a limit.
fn bad_surrogates(out: &mut String, value: &[u8]) -> Result<bool, AllocError> {
    let mut total = 0usize;
    for key in value.split(|byte| *byte == b',') {
        if bad_sized(out, "a surrogate key", key, 1, 1024)? {
            return Ok(true);
        }
        total = total.saturating_add(hex_len(key)).saturating_add(1);
    }
    if total <= 16_385 {
        return Ok(false);
    }
    out.push_str("the surrogate keys, with a space between two, have ")?;
    show_number(out, total.saturating_sub(1) as u64)?;
    out.push_str(" bytes; they can have 16,384")?;
    Ok(true)
}

/// Names of headers that rise by their bytes.
fn bad_vary(out: &mut String, value: &[u8]) -> Result<bool, AllocError> {
    let mut before: &[u8] = b"";
    let mut count = 0usize;
    for name in value.split(|byte| *byte == b',') {
        if bad_name(out, name)? {
            return Ok(true);
        }
        if name <= before {
            out.push_str("the names of `vary=` are to be sorted, each once: ")?;
            quote(out, name)?;
            out.push_str(" can't stand behind ")?;
            quote(out, before)?;
            return Ok(true);
        }
        before = name;
        count = count.saturating_add(1);
    }
    if count > 32 {
        write!(out, "`vary=` names {count} headers; it can name 32")?;
        return Ok(true);
    }
    Ok(false)
}

/// A header, `NAME:HEX`.
fn bad_header(out: &mut String, value: &[u8]) -> Result<bool, AllocError> {
    let mut parts = value.splitn(2, |byte| *byte == b':');
    let name = parts.next().unwrap_or(b"");
    if bad_name(out, name)? {
        return Ok(true);
    }
    match parts.next() {
        None => {
            out.push_str("a header is written `h=NAME:HEX`, with a colon; an empty value is `-`")?;
            Ok(true)
        }
        Some(text) => bad_sized(out, "a header's value", text, 0, usize::MAX),
    }
}

/// An option whose leaving out says 0 or nothing.
fn bad_zero(
    out: &mut String,
    name: &str,
    value: &[u8],
    nothing: &[u8],
) -> Result<bool, AllocError> {
    if value != nothing {
        return Ok(false);
    }
    let shown = if name == "meta" { "-" } else { "0" };
    write!(
        out,
        "`{name}={shown}` says what leaving `{name}=` out says; leave it out"
    )?;
    Ok(true)
}

/// The value of the option with this rank.
fn bad_value(out: &mut String, rank: usize, value: &[u8]) -> Result<bool, AllocError> {
    match rank {
        1 => bad_range(
            out,
            "`max=`, the nanoseconds that it is fresh,",
            value,
            0,
            MOST,
        ),
        2 => Ok(bad_zero(out, "age", value, b"0")? || bad_range(out, "`age=`", value, 1, MOST)?),
        3 => Ok(bad_zero(out, "swr", value, b"0")? || bad_range(out, "`swr=`", value, 1, MOST)?),
        4 => bad_surrogates(out, value),
        5 => Ok(
            bad_zero(out, "meta", value, b"-")? || bad_sized(out, "`meta=`", value, 1, 65_536)?,
        ),
        6 => bad_vary(out, value),
        7 => bad_range(
            out,
            "`len=`, the body's length in bytes,",
            value,
            0,
            67_108_864,
        ),
        _ => bad_header(out, value),
    }
}

/// The option that has this name elsewhere.
fn usual_name(name: &[u8]) -> Option<&'static str> {
    match name {
        b"ttl" | b"max_age" | b"max-age" => Some("max"),
        b"initial_age" => Some("age"),
        b"stale_while_revalidate" | b"stale-while-revalidate" => Some("swr"),
        b"surrogate" | b"surrogate_key" | b"surrogate_keys" => Some("sur"),
        b"user_metadata" => Some("meta"),
        b"length" | b"known_length" => Some("len"),
        b"header" | b"headers" => Some("h"),
        _ => None,
    }
}

/// A word that is no option.
fn no_option(out: &mut String, word: &[u8], name: &[u8], taken: Taken) -> Result<(), AllocError> {
    if word.starts_with(b"#") || word.starts_with(b"//") {
        return out.push_str("a run file has no comments");
    }
    if !taken.sets && !taken.heads {
        out.push_str("nothing can follow here, but there stands ")?;
        return quote(out, word);
    }
    out.push_str("there is no option ")?;
    quote(out, word)?;
    if let Some(known) = usual_name(name) {
        return write!(out, "; in a run file it is `{known}=`");
    }
    match nearest(name, &NAMES) {
        Some(known) => write!(out, "; did you mean `{known}=`?"),
        None => out.push_str("; the options are, in this order, max age swr sur meta vary len h"),
    }
}

/// An option that stands where it can't.
fn misplaced(out: &mut String, rank: usize, last: usize) -> Result<(), AllocError> {
    let name = NAMES.get(rank.saturating_sub(1)).copied().unwrap_or("");
    let before = NAMES.get(last.saturating_sub(1)).copied().unwrap_or("");
    if rank == last {
        return write!(out, "the option `{name}=` stands twice");
    }
    write!(
        out,
        "`{name}=` can't stand behind `{before}=`; the order is max age swr sur meta vary len h"
    )
}

/// One word behind the operands; `last` is the rank of the option before it.
fn bad_option(
    out: &mut String,
    word: &[u8],
    taken: Taken,
    last: usize,
) -> Result<Option<usize>, AllocError> {
    let (name, value) = parted(word).unwrap_or((word, b""));
    let rank = match rank_of(name) {
        Some(rank) if name.len() < word.len() => rank,
        _ => {
            no_option(out, word, name, taken)?;
            return Ok(None);
        }
    };
    if !is_taken(taken, rank) {
        out.push_str("this call doesn't take ")?;
        quote(out, word)?;
        return Ok(None);
    }
    if rank < last || (rank == last && rank < 8) {
        misplaced(out, rank, last)?;
        return Ok(None);
    }
    if taken.sets && last == 0 && rank > 1 {
        out.push_str(
            "`max=NUM` is missing: how many nanoseconds the object is fresh; it comes first",
        )?;
        return Ok(None);
    }
    if bad_value(out, rank, value)? {
        return Ok(None);
    }
    Ok(Some(rank))
}

/// The words behind the operands of a call.
pub fn bad_options<'a>(
    out: &mut String,
    words: &[&'a [u8]],
    taken: Taken,
) -> Result<bool, AllocError> {
    let mut last = 0usize;
    let mut headers = 0usize;
    for word in words {
        match bad_option(out, word, taken, last)? {
            None => return Ok(true),
            Some(rank) => last = rank,
        }
        if last == 8 {
            headers = headers.saturating_add(1);
        }
    }
    if taken.sets && last == 0 {
        out.push_str("`max=NUM` is missing: how many nanoseconds the object is fresh")?;
        return Ok(true);
    }
    if headers > 100 {
        write!(out, "there are {headers} headers; there can be 100")?;
        return Ok(true);
    }
    Ok(false)
}
