//! How the pieces of an answer's body are written.
ghost use Rattle.std.specs.Prelude.{◌≡◌, ◌<◌, ◌++◌, ℕ, List, Option, IsTrue, length, codes, IfOk};
ghost use Rattle.std.specs.List.{list_any, slice_split};
ghost use Rattle.std.specs.Fmt.{digits};
ghost use Rattle.edge_body.specs.Heads.{Response, is_status, are_fields};
ghost use Rattle.http_text.specs.Lines.{is_line_feed};
ghost use Rattle.http_text.specs.Bodies.{IsSized};
ghost use Rattle.http_text.specs.Chunks.{HasNone, HasNoChunked};
ghost use Rattle.http_front.specs.Answers.{answer_text};
ghost use Rattle.http_front.specs.Laws.{Fit, frames, IsFramed, own_framing};
ghost use Rattle.http_front.specs.Frames.{has_empty_status, is_chunked_line, has_chunked_line, framing_of, chunk_text, piece_text, end_text};

use crate::Framing;
use cache_types::Octets;
use edge_body::RequestHead;
use edge_words::Text;
use std::alloc::{AllocError, Global};

/// The status that the head tells is 204 or 304.
fn has_empty_status(head: &[u8]) -> bool
    ensures { result ≡ has_empty_status head.now }
{
    head.len() >= 12 && (&head[9..12] == b"204".as_slice() || &head[9..12] == b"304".as_slice())
}

fn is_chunked_line(line: &[u8]) -> bool
    ensures { result ≡ is_chunked_line line.now }
{
    line == b"transfer-encoding: chunked\r".as_slice()
}

fn has_chunked_line(head: &[u8]) -> bool
    ensures { result ≡ has_chunked_line head.now }
{
    head.split(|byte| *byte == b'\n')
        .any(|line| is_chunked_line(line))
}

/// How the pieces of the answer with this head to this request are written. `own` says that it is as the head tells it,
/// where `answer_head` wrote that.
pub fn framing(request: &RequestHead, head: &Octets) -> Framing
    ensures value { result ≡ framing_of request.now.method head.now }
    ensures own { (response : Response) (told : Option ℕ) → IsTrue (is_status response.status) → IsTrue (are_fields response.fields)
        → head.now ≡ answer_text request.now response told
        → result ≡ own_framing request.now.method response.status request.now.version told }
{
    framing_of(request.method(), head)
}

fn framing_of(method: &Octets, head: &Octets) -> Framing
    ensures { result ≡ framing_of method.now head.now }
{
    if method.bytes() == b"HEAD".as_slice() || has_empty_status(head.bytes()) {
        return Framing::Empty;
    }
    if has_chunked_line(head.bytes()) {
        return Framing::Chunked;
    }
    Framing::Plain
}

/// A piece of the body in its frame.
pub fn piece_frame(alloc: Global, framing: Framing, piece: &Octets) -> Result<Octets, AllocError>
    ensures { IfOk result (λ frame. frame ≡ piece_text framing piece.now) }
{
    match framing {
        Framing::Plain => Octets::of(alloc, piece.bytes()),
        Framing::Chunked if !piece.bytes().is_empty() => chunk(alloc, piece.bytes()),
        _ => Octets::from_vec(Vec::new(alloc)),
    }
}

fn chunk(alloc: Global, piece: &[u8]) -> Result<Octets, AllocError>
    ensures { IfOk result (λ frame. frame ≡ chunk_text piece.now) }
{
    let length = format!(in alloc; "{:x}", piece.len())?;
    let text = Text::new(alloc).plain(length.as_bytes())?.plain(b"\r\n")?;
    let text = text.plain(piece)?.plain(b"\r\n")?;
    Octets::from_vec(text.into_bytes())
}

/// The end of a whole body. `whole` says that with it behind them the frames of any pieces are these pieces' body, and
/// `cut` that without it they aren't one, where they are chunks. Where a length was told `short` says it: fewer bytes
/// aren't a body of that length.
pub fn end_frame(alloc: Global, framing: Framing) -> Result<Octets, AllocError>
    ensures text { IfOk result (λ frame. frame ≡ end_text framing) }
    ensures whole { IfOk result (λ frame. (pieces : List (List ℕ)) → Fit pieces → IsFramed framing pieces (frames framing pieces ++ frame)) }
    ensures cut { (pieces : List (List ℕ)) → Fit pieces → HasNoChunked (frames Framing.Chunked pieces) }
    ensures short { (told : ℕ) (text : List ℕ) → length text < told → HasNone (IsSized told) text }
{
    end_of(alloc, framing)
}

fn end_of(alloc: Global, framing: Framing) -> Result<Octets, AllocError>
    ensures { IfOk result (λ frame. frame ≡ end_text framing) }
{
    match framing {
        Framing::Chunked => Octets::of(alloc, b"0\r\n\r\n"),
        _ => Octets::from_vec(Vec::new(alloc)),
    }
}
