//! What is wrong with a run file, at the line that `edge` told.

use crate::calls::call_hint;
use crate::spelling::{bad_number, bad_range, begins_with_digit};
use crate::spot::{Part, Spot, spot_at};
use crate::text::{quote, show_number};
use std::alloc::AllocError;
use std::fmt::Write;

/// The most bytes of a run file, and of a play file.
pub const MOST_BYTES: usize = 67_108_864;

/// A file of another kind; told by its first bytes.
fn other_file(bytes: &[u8]) -> Option<&'static str> {
    if bytes.is_empty() {
        return Some(
            "the file is empty; the shortest run file is the lines `edge-run 1`, `steps`, `end`",
        );
    }
    if bytes.starts_with(b"\0asm") {
        return Some(
            "this is a WebAssembly module, not a run file: `./edge check` tells what it is",
        );
    }
    if bytes.starts_with(b"edge-journal ") {
        return Some(
            "this is a journal, what `./edge script` writes, not a run file; a run file begins with `edge-run 1`",
        );
    }
    if bytes.starts_with(b"edge-play ") {
        return Some(
            "this is a play file, of the guests of a module: `./edge play MODULE SETTINGS RUN` plays it; a run file begins with `edge-run 1`",
        );
    }
    if bytes.starts_with(b"edge-batch ") {
        return Some(
            "this is a file for a command that isn't there yet; a run file begins with `edge-run 1`",
        );
    }
    encoded(bytes)
}

/// A text in another coding, or a packed one; told by its first bytes.
pub fn encoded(bytes: &[u8]) -> Option<&'static str> {
    if bytes.starts_with(b"\xef\xbb\xbf") {
        return Some(
            "the file begins with a byte order mark (EF BB BF), which editors don't show: save it as UTF-8 without one, or `tail -c +4 OLD > NEW`",
        );
    }
    if bytes.starts_with(b"\xff\xfe") || bytes.starts_with(b"\xfe\xff") {
        return Some("the file is in UTF-16; save it as plain ASCII");
    }
    if bytes.starts_with(b"\x1f\x8b") {
        return Some("the file is packed by gzip; unpack it first");
    }
    None
}

/// How a file of settings begins.
const SETTINGS: [&str; 7] = [
    "manifest_version",
    "name =",
    "description =",
    "authors =",
    "language =",
    "[local_server",
    "# This file describes a Fastly Compute package",
];

/// Settings; told by their first bytes.
pub fn is_settings(bytes: &[u8]) -> bool {
    for front in SETTINGS {
        if bytes.starts_with(front.as_bytes()) {
            return true;
        }
    }
    false
}

/// Two spaces stand side by side.
fn has_two_spaces(line: &[u8]) -> bool {
    let mut before = b'x';
    for byte in line {
        if *byte == b' ' && before == b' ' {
            return true;
        }
        before = *byte;
    }
    false
}

/// The place of the first byte that stands in no line, counted from 1.
pub fn odd_byte(line: &[u8]) -> Option<(usize, u8)> {
    let mut place = 0usize;
    for byte in line {
        place = place.saturating_add(1);
        if *byte < 32 || *byte > 126 {
            return Some((place, *byte));
        }
    }
    None
}

/// What is wrong with the line's blanks and with bytes that an editor may not show.
pub fn unseen(line: &[u8]) -> Option<&'static str> {
    if line.ends_with(b"\r") {
        return Some(
            "the line ends with a carriage return (0D), which editors don't show: the file has the line ends of Windows. `tr -d '\\r' < OLD > NEW` mends it",
        );
    }
    if line.contains(&b'\t') {
        return Some("there is a tab; one space stands between two words");
    }
    if line.is_empty() {
        return Some("the line is empty; a run file has no empty lines");
    }
    if line.first() == Some(&b' ') {
        return Some("the line begins with a space; lines aren't indented");
    }
    if line.last() == Some(&b' ') {
        return Some("the line ends with a space");
    }
    if has_two_spaces(line) {
        return Some("two spaces stand side by side; one stands between two words");
    }
    None
}

/// The file ends where a line is wanted.
fn too_short(out: &mut String, part: Part) -> Result<(), AllocError> {
    match part {
        Part::Steps => out.push_str("the file ends without its last line, `end`"),
        Part::Over => out.push_str("nothing can follow the line `end`"),
        Part::Head => out.push_str("the first line is to be `edge-run 1`"),
        _ => out.push_str(
            "the file ends without its schedule: the line `steps`, the steps, the line `end`",
        ),
    }
}

fn head_hint(out: &mut String, line: &[u8]) -> Result<(), AllocError> {
    if line.starts_with(b"edge-run ") {
        return out.push_str("the format's version is 1: the first line is `edge-run 1`");
    }
    out.push_str("the first line of a run file is `edge-run 1`")
}

/// A line before the first block.
fn guests_hint(out: &mut String, line: &[u8]) -> Result<(), AllocError> {
    if line == b"end".as_slice() {
        return out.push_str(
            "`end` is the last line of the file, behind the schedule, and there was no line `steps` yet; a guest's block has no last line of its own",
        );
    }
    if line.starts_with(b"guest ") {
        return out.push_str(
            "a block begins with the word `guest` alone; guests are counted from 1 in their order",
        );
    }
    if begins_with_digit(line) {
        return out.push_str(
            "a step stands before the line `steps`: the schedule begins with that word on a line of its own",
        );
    }
    out.push_str("before the first call stands the line `guest`, which begins a guest's block")
}

fn block_hint(out: &mut String, spot: &Spot<'_>) -> Result<(), AllocError> {
    if spot.line == b"guest".as_slice() && spot.guests >= 1000 {
        return out.push_str("this is guest 1,001; there can be 1,000");
    }
    if spot.line == b"end".as_slice() || spot.line.starts_with(b"guest ") {
        return guests_hint(out, spot.line);
    }
    call_hint(out, spot.line, spot.place)
}

/// The number of a guest in a step.
fn bad_guest(
    out: &mut String,
    reading: &[u8],
    guest: &[u8],
    guests: usize,
) -> Result<bool, AllocError> {
    if bad_number(out, "the guest's number", guest)? {
        return Ok(true);
    }
    if guests == 0 {
        out.push_str("there are no guests, so there can be no step")?;
        return Ok(true);
    }
    let most = guests as u64;
    if !bad_range(out, "the guest's number", guest, 1, most)? {
        return Ok(false);
    }
    let mut unused = String::new(*out.allocator());
    if !bad_range(&mut unused, "", reading, 1, most)? {
        out.push_str(" (the time comes first, then the guest: are they swapped?)")?;
    }
    Ok(true)
}

pub fn step_hint(out: &mut String, spot: &Spot<'_>) -> Result<(), AllocError> {
    if spot.steps >= 1_000_000 && spot.line != b"end".as_slice() {
        return out.push_str("this is step 1,000,001; there can be 1,000,000");
    }
    let mut words = spot.line.split(|byte| *byte == b' ');
    let reading = words.next().unwrap_or(b"");
    let guest = words.next().unwrap_or(b"");
    let is_number = begins_with_digit(reading);
    if reading == b"guest".as_slice() {
        return out.push_str("blocks of guests stand before the line `steps`");
    }
    if !is_number && !reading.starts_with(b"-") && !reading.starts_with(b"+") {
        out.push_str(
            "behind `steps` stand steps, a time in nanoseconds and a guest's number, and at last `end`; not ",
        )?;
        return quote(out, spot.line);
    }
    if bad_number(out, "a step's time", reading)? || bad_guest(out, reading, guest, spot.guests)? {
        return Ok(());
    }
    out.push_str("a step is two numbers, a time in nanoseconds and a guest's number")
}

/// The line is the last one as it is to be, but for its line feed.
fn is_unended(spot: &Spot<'_>) -> bool {
    !spot.ended && spot.part == Part::Steps && spot.line == b"end".as_slice()
}

/// The hint for a line that is there.
fn line_hint(out: &mut String, spot: &Spot<'_>) -> Result<(), AllocError> {
    if spot.part == Part::Over {
        return out.push_str("nothing can follow the line `end`, not even an empty line");
    }
    if is_unended(spot) {
        return out.push_str("the last line has no line feed at its end");
    }
    if let Some(hint) = unseen(spot.line) {
        return out.push_str(hint);
    }
    if let Some((place, byte)) = odd_byte(spot.line) {
        return write!(
            out,
            "byte {place} of the line is {byte:02X}; a run file is plain ASCII"
        );
    }
    match spot.part {
        Part::Head => head_hint(out, spot.line),
        Part::Guests => guests_hint(out, spot.line),
        Part::Steps => step_hint(out, spot),
        _ => block_hint(out, spot),
    }
}

/// The hint for a file that isn't a run file, and whose first bad line has this number.
pub fn run_hint(out: &mut String, bytes: &[u8], number: usize) -> Result<(), AllocError> {
    if let Some(hint) = other_file(bytes) {
        return out.push_str(hint);
    }
    if bytes.len() > MOST_BYTES {
        out.push_str("the file has ")?;
        show_number(out, bytes.len() as u64)?;
        return out.push_str(" bytes; a run file can have 67,108,864");
    }
    let spot = spot_at(bytes, number);
    if !spot.exists {
        return too_short(out, spot.part);
    }
    write!(out, "line {number}: ")?;
    quote(out, spot.line)?;
    out.push('\n')?;
    line_hint(out, &spot)?;
    if !spot.ended && !is_unended(&spot) {
        out.push_str("\nthe file ends there, without a line feed: was it cut off?")?;
    }
    Ok(())
}
