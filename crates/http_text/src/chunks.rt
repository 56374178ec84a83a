//! Chunked bodies over bytes: a line, a chunk, the end, and all whole chunks at the front.
ghost use Rattle.std.specs.Prelude.{◌≡◌, ◌<◌, ◌≤◌, ◌-◌, ◌++◌, length, take, drop, IfOk, OnOk, Vec, vec_len};
ghost use Rattle.httparse.specs.Grammar.{ChunkLine, HasNoChunkLine, chunk_size, print_chunk_line, crlf, print_end};
ghost use Rattle.httparse.specs.Spans.{IsChunkLineAt};
ghost use Rattle.http_text.specs.Fields.{most_body};
ghost use Rattle.http_text.specs.Chunks.{Tells, TellsAfter, ChunksBefore};
ghost use Rattle.http_text.specs.Lines.{TellsLine, TellsEnd};

use httparse::{Status, parse_chunk_size};
use std::alloc::AllocError;

/// The greatest length of a chunk's line, with its end.
const MOST_LINE: usize = 1024;

/// The greatest length of a body.
pub const MOST_BODY: usize = 67_108_864;

/// What stands at the front of the bytes of a chunked body.
#[derive(Clone, Copy, Debug, PartialEq, Eq)]
pub enum NextChunk {
    /// A whole chunk: where its bytes begin and end, and where the next begins.
    Chunk(usize, usize, usize),
    /// The end of the body, and where it ends.
    Last(usize),
    /// More bytes may tell.
    Open,
    /// A line by which the body is over its limit.
    Over,
    /// Nothing that a chunked body has.
    Bad,
}

/// What comes after whole chunks.
#[derive(Clone, Copy, Debug, PartialEq, Eq)]
pub enum AfterChunks {
    /// The end of the body, and where it ends.
    Last(usize),
    /// More bytes may tell.
    Open,
    /// A line by which the body is over its limit.
    Over,
    /// Nothing that a chunked body has.
    Bad,
}

/// What stands at the front of a line, whole with its length and number, or not yet, or never.
#[derive(Clone, Copy, Debug, PartialEq, Eq)]
pub enum NextLine {
    Line(usize, u64),
    Open,
    Bad,
}

/// What stands at the front where a line is to end.
#[derive(Clone, Copy, Debug, PartialEq, Eq)]
pub enum NextEnd {
    End,
    Open,
    Bad,
}

/// The bytes from a place on.
pub fn after(bytes: &[u8], at: usize) -> &[u8]
    requires { at ≤ length bytes.now }
    ensures { result.now ≡ drop at bytes.now }
{
    &bytes[at..]
}

/// A chunk's line at the front.
fn next_line(bytes: &[u8]) -> NextLine
    ensures { TellsLine bytes.now result }
{
    match parse_chunk_size(bytes) {
        Ok(Status::Complete((end, size))) if end <= MOST_LINE => NextLine::Line(end, size),
        Ok(Status::Partial) if bytes.len() < MOST_LINE => NextLine::Open,
        _ => NextLine::Bad,
    }
}

/// A line's end at the front, CR LF.
fn next_end(bytes: &[u8]) -> NextEnd
    ensures { TellsEnd bytes.now result }
{
    if bytes.starts_with(b"\r\n") {
        return NextEnd::End;
    }
    if bytes.is_empty() || bytes.len() == 1 && bytes[0] == b'\r' {
        return NextEnd::Open;
    }
    NextEnd::Bad
}

/// The end of the body at the front, whose line has this length.
fn last_chunk(bytes: &[u8], end: usize, room: usize) -> NextChunk
    requires { (l : ChunkLine) × IsChunkLineAt bytes.now end 0 l × (end ≤ 1024) }
    ensures { Tells bytes.now room result }
{
    match next_end(after(bytes, end)) {
        NextEnd::End => NextChunk::Last(end + 2),
        NextEnd::Open => NextChunk::Open,
        NextEnd::Bad => NextChunk::Bad,
    }
}

/// A chunk at the front, whose line has this length and tells this size.
fn whole_chunk(bytes: &[u8], end: usize, size: usize, room: usize) -> NextChunk
    requires line { (l : ChunkLine) × IsChunkLineAt bytes.now end size l × (end ≤ 1024) }
    requires some { 0 < size }
    requires fits { size ≤ room }
    requires room { room ≤ most_body }
    ensures { Tells bytes.now room result }
{
    let last = end + size;
    if bytes.len() < last {
        return NextChunk::Open;
    }
    match next_end(after(bytes, last)) {
        NextEnd::End => NextChunk::Chunk(end, last, last + 2),
        NextEnd::Open => NextChunk::Open,
        NextEnd::Bad => NextChunk::Bad,
    }
}

/// What stands at the front, where the body has room for so many bytes more.
pub fn next_chunk(bytes: &[u8], room: usize) -> NextChunk
    requires { room ≤ most_body }
    ensures { Tells bytes.now room result }
{
    match next_line(bytes) {
        NextLine::Line(end, 0) => last_chunk(bytes, end, room),
        NextLine::Line(_, size) if size > room as u64 => NextChunk::Over,
        NextLine::Line(end, size) => whole_chunk(bytes, end, size as usize, room),
        NextLine::Open => NextChunk::Open,
        NextLine::Bad => NextChunk::Bad,
    }
}

/// The whole chunks at the front, whose bytes are added to the body: how many bytes they are, and what comes then.
pub fn take_chunks(bytes: &[u8], body: &mut Vec<u8>) -> Result<(usize, AfterChunks), AllocError>
    requires { vec_len body.old ≤ most_body }
    ensures fits { vec_len body.new ≤ most_body }
    ensures within { IfOk result (λ r. r.0 ≤ length bytes.now) }
    ensures chunks { IfOk result (λ r. ChunksBefore bytes.now body.old.items body.new.items (drop r.0 bytes.now)) }
    ensures tells { IfOk result (λ r. TellsAfter (drop r.0 bytes.now) (most_body - vec_len body.new) r.1) }
{
    let mut at = 0;
    loop {
        let rest = after(bytes, at);
        match next_chunk(rest, MOST_BODY - body.len()) {
            NextChunk::Chunk(start, end, next) => {
                body.extend_from_slice(&rest[start..end])?;
                at += next;
            }
            NextChunk::Last(next) => return Ok((at, AfterChunks::Last(next))),
            NextChunk::Open => return Ok((at, AfterChunks::Open)),
            NextChunk::Over => return Ok((at, AfterChunks::Over)),
            NextChunk::Bad => return Ok((at, AfterChunks::Bad)),
        }
    }
}
