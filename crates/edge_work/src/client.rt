//! What goes to a guest's client.
ghost use Rattle.std.specs.Prelude.{◌≡◌, [], if◌then◌else◌};
ghost use Rattle.cache_types.specs.declared.outer.OuterCall.TheVariants as outer;
ghost use Rattle.edge_outside.specs.Made.{Made};
ghost use Rattle.edge_outside.specs.Sink.{IsWrite};
ghost use Rattle.http_front.specs.Frames.{piece_text, end_text};
ghost use Rattle.guest_answers.specs.Wire.{frame};
ghost use Rattle.edge_work.specs.Sent.{ToClient, IsWriteGiven, Finished};

use cache_types::{Octets, Outcome, OuterReply};
use edge_outside::{Failed, Sink};
use guest_answers::Answer;
use http_front::{Framing, end_frame, piece_frame};
use std::alloc::Global;

/// Writes these bytes, if there are any. Where the write fails the client is gone.
fn send<K: Sink>(sink: &mut K, bytes: &[u8]) -> Result<OuterReply, Outcome>
    ensures sent { ToClient (Made (IsWrite K.writes K.content)) K.faults bytes.now result sink.old sink.new }
    ensures no_memory { IsWriteGiven result }
{
    if bytes.is_empty() {
        return Ok(OuterReply::Sent);
    }
    match sink.write(bytes) {
        Ok(()) => Ok(OuterReply::Sent),
        Err(Failed) => Err(Outcome::ClientGone),
    }
}

fn send_framed<K: Sink>(
    alloc: Global,
    sink: &mut K,
    framing: Framing,
    piece: &Octets,
) -> Result<OuterReply, Outcome>
    ensures { ToClient (Made (IsWrite K.writes K.content)) K.faults (piece_text framing piece.now) result sink.old sink.new }
{
    match piece_frame(alloc, framing, piece) {
        Ok(frame) => send(sink, frame.bytes()),
        Err(_) => Err(Outcome::OutOfMemory),
    }
}

fn send_end<K: Sink>(
    alloc: Global,
    sink: &mut K,
    framing: Framing,
    whole: bool,
) -> Result<OuterReply, Outcome>
    ensures { ToClient (Made (IsWrite K.writes K.content)) K.faults (if whole then end_text framing else []) result sink.old sink.new }
{
    if !whole {
        return send(sink, &[]);
    }
    match end_frame(alloc, framing) {
        Ok(frame) => send(sink, frame.bytes()),
        Err(_) => Err(Outcome::OutOfMemory),
    }
}

/// The head of the answer. A second one isn't written.
pub fn send_head<K: Sink>(
    sink: &mut K,
    answer: Answer,
    bytes: &Octets,
) -> Result<OuterReply, Outcome>
    ensures { ToClient (Made (IsWrite K.writes K.content)) K.faults (frame answer (outer.Head bytes.now)) result sink.old sink.new }
{
    match answer {
        Answer::Headless => send(sink, bytes.bytes()),
        Answer::Headed(_) => send(sink, &[]),
        Answer::Closed => send(sink, &[]),
    }
}

/// A piece of the body, as the head tells.
pub fn send_piece<K: Sink>(
    alloc: Global,
    sink: &mut K,
    answer: Answer,
    piece: &Octets,
) -> Result<OuterReply, Outcome>
    ensures { ToClient (Made (IsWrite K.writes K.content)) K.faults (frame answer (outer.Piece piece.now)) result sink.old sink.new }
{
    match answer {
        Answer::Headless => send(sink, &[]),
        Answer::Headed(framing) => send_framed(alloc, sink, framing, piece),
        Answer::Closed => send(sink, &[]),
    }
}

/// The end of the body, where it is whole.
pub fn send_close<K: Sink>(
    alloc: Global,
    sink: &mut K,
    answer: Answer,
    whole: bool,
) -> Result<OuterReply, Outcome>
    ensures { ToClient (Made (IsWrite K.writes K.content)) K.faults (frame answer (outer.Close whole)) result sink.old sink.new }
{
    match answer {
        Answer::Headless => send(sink, &[]),
        Answer::Headed(framing) => send_end(alloc, sink, framing, whole),
        Answer::Closed => send(sink, &[]),
    }
}

/// Whether it was sent. It takes the answer, which is dropped here.
fn is_sent(given: Result<OuterReply, Outcome>) -> bool {
    given.is_ok()
}

/// A guest that sent no head has a failure for an answer, unless its client is gone. It takes no memory.
pub fn finish<K: Sink>(sink: &mut K, done: bool)
    ensures { Finished (Made (IsWrite K.writes K.content)) K.faults done sink.old sink.new }
{
    if done {
        return;
    }
    let failure =
        b"HTTP/1.1 500 Internal Server Error\r\ncontent-length: 0\r\nconnection: close\r\n\r\n";
    let _sent = is_sent(send(sink, failure));
}
