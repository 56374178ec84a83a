//! The HTTP answer of each guest of a play file, by its block in the journal.

use cache_types::{Done, Outcome};
use edge_body::RequestHead;
use guest_answers::answer_of;
use http_front::Incoming;
use journal_reader::{Journal, read_journal};
use play_files::{PlayFile, RunFault, read_play};
use std::alloc::AllocError;
use std::fmt::Write;
use why_texts::quote;

/// How a guest ended.
fn how(outcome: Outcome) -> &'static str {
    match outcome {
        Outcome::Returned => "returned",
        Outcome::Exited(_) => "exited",
        Outcome::Trapped(_) => "trapped",
        Outcome::OutOfFuel => "spent its fuel",
        Outcome::Timeout { .. } => "ran out of time",
        Outcome::HistoryFull => "was stopped, for the history is full",
        Outcome::ClientGone => "was stopped, for its client is gone",
        Outcome::Unscheduled => "was stopped at the end of the schedule",
        Outcome::OutOfMemory => "was stopped for want of memory",
    }
}

/// How many bytes there are up to the empty line, and with it.
fn head_length(bytes: &[u8]) -> usize {
    let mut at = 0usize;
    for window in bytes.windows(4) {
        if window == b"\r\n\r\n".as_slice() {
            return at.saturating_add(4);
        }
        at = at.saturating_add(1);
    }
    bytes.len()
}

/// The lines of a head, each behind two spaces.
fn head_lines(out: &mut String, head: &[u8]) -> Result<(), AllocError> {
    for line in head.split(|byte| *byte == b'\n') {
        let line = line.strip_suffix(b"\r").unwrap_or(line);
        if !line.is_empty() {
            out.push_str("  ")?;
            for byte in line {
                out.push(if *byte >= 32 && *byte <= 126 {
                    char::from(*byte)
                } else {
                    '?'
                })?;
            }
            out.push('\n')?;
        }
    }
    Ok(())
}

/// The bytes of an answer: its head line by line, and the front of its body as it was framed.
fn answer_lines(out: &mut String, bytes: &[u8]) -> Result<(), AllocError> {
    let (head, body) = bytes.split_at(head_length(bytes).min(bytes.len()));
    head_lines(out, head)?;
    if body.is_empty() {
        return Ok(());
    }
    write!(out, "  {} bytes behind the head: ", body.len())?;
    quote(out, body)?;
    out.push('\n')
}

fn title(out: &mut String, request: &RequestHead, done: &Done) -> Result<(), AllocError> {
    write!(out, "guest {} ", done.index)?;
    quote(out, request.method().bytes())?;
    out.push(' ')?;
    quote(out, request.uri().bytes())?;
    write!(out, " {}\n", how(done.outcome))
}

/// The answer of one guest.
fn guest_lines(out: &mut String, request: &RequestHead, done: &Done) -> Result<(), AllocError> {
    title(out, request, done)?;
    let answer = answer_of(*out.allocator(), request, done)?;
    if answer.bytes().is_empty() {
        return out.push_str("  nothing was sent\n");
    }
    answer_lines(out, answer.bytes())
}

fn all_lines(out: &mut String, requests: &[Incoming], blocks: &[Done]) -> Result<(), AllocError> {
    for (request, done) in requests.iter().zip(blocks) {
        guest_lines(out, &request.head, done)?;
    }
    Ok(())
}

/// The answers of these guests, where the journal has a block for each request.
fn both(out: &mut String, play: &PlayFile, journal: &Journal) -> Result<(), AllocError> {
    let requests = play.requests.items();
    let blocks = journal.guests.items();
    if requests.len() != blocks.len() {
        return write!(
            out,
            "the journal is of another play file: it has {} guests, and the play file {} requests\n",
            blocks.len(),
            requests.len()
        );
    }
    all_lines(out, requests, blocks)
}

/// What is said of a file that can't be read.
fn unread(out: &mut String, what: &str, fault: RunFault) -> Result<(), AllocError> {
    match fault {
        RunFault::OutOfMemory => Err(AllocError),
        RunFault::Line(line) => write!(out, "{what}: line {line}\n"),
    }
}

/// The answer of each guest of a play file to its request, by the journal that playing it gave.
pub fn draw_answers(out: &mut String, play: &[u8], journal: &[u8]) -> Result<(), AllocError> {
    let read = read_play(*out.allocator(), play);
    match read {
        Err(fault) => unread(out, "the play file", fault),
        Ok(play) => match read_journal(*out.allocator(), journal) {
            Err(fault) => unread(out, "the journal", fault),
            Ok(journal) => both(out, &play, &journal),
        },
    }
}
