//! The answer of a guest, from its block.
ghost use Rattle.std.specs.Prelude.{◌≡◌, ◌++◌, [], IfOk, if◌then◌else◌};
ghost use Rattle.cache_types.specs.declared.outer.OuterCall.TheVariants as outer;
ghost use Rattle.http_front.specs.Frames.{piece_text, end_text};
ghost use Rattle.guest_answers.specs.Wire.{head_frame, body_frame, frame};
ghost use Rattle.guest_answers.specs.Blocks.{event_frame, after_event, behind_events, bytes_of, unanswered, answer_of};

use crate::answer::{Answer, after_call};
use cache_types::{Done, Event, Octets, Outcome, OuterCall};
use edge_body::RequestHead;
use edge_words::Text;
use http_front::{Framing, end_frame, error_answer, piece_frame};
use std::alloc::{AllocError, Global};

/// The bytes of an answer so far.
#[derive(Drop)]
struct Written {
    answer: Answer,
    text: Text,
}

fn with_piece(
    alloc: Global,
    text: Text,
    framing: Framing,
    piece: &Octets,
) -> Result<Text, AllocError>
    ensures { IfOk result (λ new. new ≡ text ++ piece_text framing piece.now) }
{
    let frame = piece_frame(alloc, framing, piece)?;
    text.plain(frame.bytes())
}

fn with_end(alloc: Global, text: Text, framing: Framing, whole: bool) -> Result<Text, AllocError>
    ensures { IfOk result (λ new. new ≡ text ++ (if whole then end_text framing else [])) }
{
    if !whole {
        return Ok(text);
    }
    let frame = end_frame(alloc, framing)?;
    text.plain(frame.bytes())
}

fn with_body(
    alloc: Global,
    text: Text,
    framing: Framing,
    call: &OuterCall,
) -> Result<Text, AllocError>
    ensures { IfOk result (λ new. new ≡ text ++ body_frame framing call.now) }
{
    match call {
        OuterCall::Piece { bytes } => with_piece(alloc, text, framing, bytes),
        OuterCall::Close { whole } => with_end(alloc, text, framing, *whole),
        _ => Ok(text),
    }
}

fn with_head(text: Text, call: &OuterCall) -> Result<Text, AllocError>
    ensures { IfOk result (λ new. new ≡ text ++ head_frame call.now) }
{
    match call {
        OuterCall::Head { bytes } => text.plain(bytes.bytes()),
        _ => Ok(text),
    }
}

fn with_call(
    alloc: Global,
    text: Text,
    answer: Answer,
    call: &OuterCall,
) -> Result<Text, AllocError>
    ensures { IfOk result (λ new. new ≡ text ++ frame answer call.now) }
{
    match answer {
        Answer::Headless => with_head(text, call),
        Answer::Headed(framing) => with_body(alloc, text, framing, call),
        Answer::Closed => Ok(text),
    }
}

fn with_event(
    alloc: Global,
    request: &RequestHead,
    written: Written,
    event: &Event,
) -> Result<Written, AllocError>
    ensures text { IfOk result (λ new. new.text ≡ written.text ++ event_frame written.answer event.now) }
    ensures answer { IfOk result (λ new. new.answer ≡ after_event request.now.method written.answer event.now) }
{
    match event {
        Event::Entry(_) => Ok(written),
        Event::Outer { call, .. } => {
            let answer = after_call(request, written.answer, call);
            let text = with_call(alloc, written.text, written.answer, call)?;
            Ok(Written { answer, text })
        }
    }
}

fn with_events(
    alloc: Global,
    request: &RequestHead,
    written: Written,
    events: &[Event],
) -> Result<Written, AllocError>
    ensures text { IfOk result (λ new. new.text ≡ written.text ++ bytes_of request.now.method written.answer events.now) }
    ensures answer { IfOk result (λ new. new.answer ≡ behind_events request.now.method written.answer events.now) }
{
    let mut all = written;
    for event in events {
        all = with_event(alloc, request, all, event)?;
    }
    Ok(all)
}

fn unanswered(alloc: Global, outcome: Outcome) -> Result<Octets, AllocError>
    ensures { IfOk result (λ bytes. bytes ≡ unanswered outcome) }
{
    match outcome {
        Outcome::ClientGone => Octets::of(alloc, &[]),
        _ => error_answer(alloc),
    }
}

/// The bytes of the answer of a block's guest to this request: its head, then its pieces as the head tells, and the end where
/// the body is whole. Nothing is written behind the end, nor before the head. A guest that sent no head has the answer 500
/// with no body, and none at all where its client was gone.
pub fn answer_of(alloc: Global, request: &RequestHead, done: &Done) -> Result<Octets, AllocError>
    ensures { IfOk result (λ bytes. bytes ≡ answer_of request.now.method done.now) }
{
    let none = Written {
        answer: Answer::Headless,
        text: Text::new(alloc),
    };
    let all = with_events(alloc, request, none, done.trace.items())?;
    match all.answer {
        Answer::Headless => unanswered(alloc, done.outcome),
        Answer::Headed(_) | Answer::Closed => Octets::from_vec(all.text.into_bytes()),
    }
}
