//! What is wrong with a play file, at the line that `edge` told.

use crate::play_spot::{PlayPart, PlaySpot, play_spot_at};
use crate::requests::request_hint;
use crate::runs::{MOST_BYTES, encoded, is_settings, odd_byte, step_hint, unseen};
use crate::spelling::{are_hex_words, bad_hex, bad_number, begins_with_digit, hex_len};
use crate::spot::{Part, Spot};
use crate::text::{quote, show_number};
use std::alloc::{AllocError, Global};
use std::fmt::Write;

/// A file of another kind; told by its first bytes.
fn other_file(bytes: &[u8]) -> Option<&'static str> {
    if bytes.is_empty() {
        return Some(
            "the file is empty; the shortest play file is the lines `edge-play 1`, `fuel 0`, `random` with 64 zeros, `steps`, `end`",
        );
    }
    if bytes.starts_with(b"\0asm") {
        return Some(
            "this is a WebAssembly module, not a play file: `./edge play` takes its files in the order MODULE SETTINGS RUN",
        );
    }
    if is_settings(bytes) {
        return Some(
            "these are settings, not a play file: `./edge play` takes its files in the order MODULE SETTINGS RUN",
        );
    }
    if bytes.starts_with(b"edge-run ") {
        return Some(
            "this is a run file, of guests that are scripts: `./edge script` plays it; a play file begins with `edge-play 1`",
        );
    }
    if bytes.starts_with(b"edge-batch ") {
        return Some(
            "this is a file for a command that isn't there yet; a play file begins with `edge-play 1`",
        );
    }
    if bytes.starts_with(b"edge-journal ") {
        return Some(
            "this is a journal, what `./edge play` and `./edge script` write, not a play file; a play file begins with `edge-play 1`",
        );
    }
    encoded(bytes)
}

/// What is wanted where the file ends too early.
fn too_short(part: PlayPart) -> &'static str {
    match part {
        PlayPart::Head => "the first line is to be `edge-play 1`",
        PlayPart::Fuel =>
            "the file ends behind its first line; `fuel` and `random`, the requests and the schedule follow",
        PlayPart::Random =>
            "the file ends behind `fuel`; `random`, the requests and the schedule follow",
        PlayPart::Requests =>
            "the file ends without its schedule: the line `steps`, the steps, the line `end`",
        PlayPart::Steps => "the file ends without its last line, `end`",
        PlayPart::Over => "nothing can follow the line `end`",
    }
}

fn head_hint(out: &mut String, line: &[u8]) -> Result<(), AllocError> {
    if line.starts_with(b"edge-play ") {
        return out.push_str("the format's version is 1: the first line is `edge-play 1`");
    }
    out.push_str("the first line of a play file is `edge-play 1`")
}

/// What stands behind the line's first word and a space, where that is this word.
fn behind<'a>(word: &[u8], line: &'a [u8]) -> Option<&'a [u8]> {
    let rest = line.strip_prefix(word)?;
    if rest.is_empty() {
        return Some(rest);
    }
    rest.strip_prefix(b" ")
}

fn fuel_hint(out: &mut String, line: &[u8]) -> Result<(), AllocError> {
    let Some(word) = behind(b"fuel", line) else {
        return out.push_str(
            "the second line is `fuel` and a number: how many instructions each guest may execute",
        );
    };
    if !word.contains(&b' ') && bad_number(out, "the fuel", word)? {
        return Ok(());
    }
    out.push_str("behind `fuel` stands one number, and nothing else")
}

fn random_hint(out: &mut String, line: &[u8]) -> Result<(), AllocError> {
    let Some(word) = behind(b"random", line) else {
        return out.push_str(
            "the third line is `random` and 32 bytes in hexadecimal, of which the guests' random numbers are made; 64 zeros will do",
        );
    };
    if word.contains(&b' ') {
        return out.push_str(
            "behind `random` stands one word of 64 hexadecimal digits, without spaces",
        );
    }
    if !word.is_empty() && bad_hex(out, "the word behind `random`", word)? {
        return Ok(());
    }
    let count = hex_len(word).saturating_mul(2);
    write!(
        out,
        "behind `random` there have to be 32 bytes, so 64 hexadecimal digits, and there are {count}"
    )
}

/// The value of a digit; 0 for every other byte.
fn digit_of(byte: u8) -> u8 {
    match byte {
        b'0'..=b'9' => byte - b'0',
        b'a'..=b'f' => byte - b'a' + 10,
        _ => 0,
    }
}

/// The bytes of a word of hexadecimal digits.
fn bytes_of(alloc: Global, word: &[u8]) -> Result<Vec<u8>, AllocError> {
    let mut bytes = Vec::new(alloc);
    let mut high = None;
    for byte in word {
        let digit = digit_of(*byte);
        match high {
            None => high = Some(digit),
            Some(first) => {
                bytes.push(first.wrapping_mul(16).wrapping_add(digit))?;
                high = None;
            }
        }
    }
    Ok(bytes)
}

/// What is wrong with the word of a request.
fn word_hint(out: &mut String, word: &[u8]) -> Result<(), AllocError> {
    if word.is_empty() {
        return out.push_str("behind `request` stand the bytes of a request in hexadecimal");
    }
    if word == b"-".as_slice() {
        return out.push_str("`-` stands for no bytes, and no bytes are no request");
    }
    if word.contains(&b' ') && are_hex_words(word) {
        return out.push_str("the hexadecimal of a request is one word, without spaces");
    }
    if bad_hex(out, "the request", word)? {
        return out.push_str("\nexamples/guests/request.sh makes the line of a request");
    }
    let text = bytes_of(*out.allocator(), word)?;
    request_hint(out, text.as_slice())
}

const NO_BLOCKS: &str =
    "a play file has no blocks of guests: each line `request` makes a guest, which runs the module";

/// A line where requests stand, which is no request.
fn no_request(out: &mut String, line: &[u8]) -> Result<(), AllocError> {
    if line == b"end".as_slice() {
        return out.push_str(
            "`end` is the last line of the file, behind the schedule, and there was no line `steps` yet",
        );
    }
    if begins_with_digit(line) {
        return out.push_str(
            "a step stands before the line `steps`: the schedule begins with that word on a line of its own",
        );
    }
    if line.starts_with(b"guest") {
        return out.push_str(NO_BLOCKS);
    }
    out.push_str(
        "here stands `request` and the bytes of a request in hexadecimal, or the line `steps`; examples/guests/request.sh makes the line of a request",
    )
}

fn requests_hint(out: &mut String, spot: &PlaySpot<'_>) -> Result<(), AllocError> {
    let Some(word) = behind(b"request", spot.line) else {
        return no_request(out, spot.line);
    };
    if spot.requests >= 1000 {
        return out.push_str("this is request 1,001; there can be 1,000");
    }
    word_hint(out, word)
}

/// A line of the schedule: as in a run file, with a guest for each request.
fn schedule_hint(out: &mut String, spot: &PlaySpot<'_>) -> Result<(), AllocError> {
    if spot.line.starts_with(b"request") {
        return out.push_str("requests stand before the line `steps`");
    }
    if spot.line.starts_with(b"guest") {
        return out.push_str(NO_BLOCKS);
    }
    let there = Spot {
        line: spot.line,
        number: spot.number,
        exists: true,
        ended: spot.ended,
        part: Part::Steps,
        guests: spot.requests,
        place: 0,
        steps: spot.steps,
    };
    step_hint(out, &there)
}

/// Why the last line, which has no line feed, isn't whole.
fn unended_hint(spot: &PlaySpot<'_>) -> &'static str {
    if spot.part == PlayPart::Steps && spot.line == b"end".as_slice() {
        "the last line has no line feed at its end"
    } else {
        "the file ends in this line, which has no line feed at its end: was it cut off?"
    }
}

/// The first line of another kind of file.
fn is_other_head(spot: &PlaySpot<'_>) -> bool {
    spot.part == PlayPart::Head
        && !spot.line.starts_with(b"edge-play")
        && !b"edge-play".starts_with(spot.line)
}

/// The hint for a line whose bytes are in order.
fn part_hint(out: &mut String, spot: &PlaySpot<'_>) -> Result<(), AllocError> {
    match spot.part {
        PlayPart::Head => head_hint(out, spot.line),
        PlayPart::Fuel => fuel_hint(out, spot.line),
        PlayPart::Random => random_hint(out, spot.line),
        PlayPart::Requests => requests_hint(out, spot),
        _ => schedule_hint(out, spot),
    }
}

/// The hint for a line that is there.
fn line_hint(out: &mut String, spot: &PlaySpot<'_>) -> Result<(), AllocError> {
    if spot.part == PlayPart::Over {
        return out.push_str("nothing can follow the line `end`, not even an empty line");
    }
    if is_other_head(spot) {
        return head_hint(out, spot.line);
    }
    if !spot.ended {
        return out.push_str(unended_hint(spot));
    }
    if spot.line.is_empty() {
        return out.push_str("the line is empty; a play file has no empty lines");
    }
    if let Some(hint) = unseen(spot.line) {
        return out.push_str(hint);
    }
    if let Some((place, byte)) = odd_byte(spot.line) {
        return write!(
            out,
            "byte {place} of the line is {byte:02X}; a play file is plain ASCII"
        );
    }
    part_hint(out, spot)
}

/// The hint for a file that isn't a play file, and whose first bad line has this number.
pub fn play_hint(out: &mut String, bytes: &[u8], number: usize) -> Result<(), AllocError> {
    if let Some(hint) = other_file(bytes) {
        return out.push_str(hint);
    }
    if bytes.len() > MOST_BYTES {
        out.push_str("the file has ")?;
        show_number(out, bytes.len() as u64)?;
        return out.push_str(" bytes; a play file can have 67,108,864");
    }
    let spot = play_spot_at(bytes, number);
    if !spot.exists {
        write!(out, "there is no line {number}: ")?;
        return out.push_str(too_short(spot.part));
    }
    write!(out, "line {number}: ")?;
    quote(out, spot.line)?;
    out.push('\n')?;
    line_hint(out, &spot)
}
