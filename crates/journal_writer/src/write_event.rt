//! Writes the events of a guest, one a line.

ghost use Rattle.std.specs.Prelude.{◌≡◌, ◌++◌, IfOk, decimal, map};
ghost use Rattle.std.specs.List.{flat_map};
ghost use Rattle.edge_words.specs.Words.{spaced, after_comma, listed, ended, text_of};
ghost use Rattle.journal_writer.specs.Journal.{event_text};
ghost use Rattle.journal_writer.specs.Journal as spec;

use cache_types::{Event, OuterCall, OuterReply};
use edge_words::Text;
use std::alloc::{AllocError, Global};

// The first word of a call outside the cache.
fn outer_name(call: &OuterCall) -> &'static [u8]
    ensures { result.now ≡ spec.outer_name call.now }
{
    match call {
        OuterCall::Cache(_) => b"",
        OuterCall::Now { clock: _ } => b"now",
        OuterCall::Start {
            address: _,
            request: _,
        } => b"start",
        OuterCall::Poll { ticket: _ } => b"poll",
        OuterCall::WaitFor { ticket: _ } => b"wait",
        OuterCall::AnyOf { tickets: _ } => b"any",
        OuterCall::Head { bytes: _ } => b"head",
        OuterCall::Piece { bytes: _ } => b"piece",
        OuterCall::Close { whole: _ } => b"close",
        OuterCall::Log {
            endpoint: _,
            line: _,
        } => b"log",
    }
}

fn more_numbers(text: Text, numbers: &[u64]) -> Result<Text, AllocError>
    ensures { IfOk result (λ written. written ≡ text ++ flat_map after_comma (map decimal numbers.now)) }
{
    let mut written = text;
    for number in numbers {
        written = written.plain(b",")?.first_number(*number)?;
    }
    Ok(written)
}

fn number_list(text: Text, numbers: &[u64]) -> Result<Text, AllocError>
    ensures { IfOk result (λ written. written ≡ text ++ spaced (listed (map decimal numbers.now))) }
{
    match numbers.split_first() {
        None => text.word(b""),
        Some((first, rest)) => more_numbers(text.number(*first)?, rest),
    }
}

fn close_kind(whole: bool) -> &'static [u8]
    ensures { result.now ≡ spec.close_word whole }
{
    if whole { b"whole" } else { b"cut" }
}

// The words after the first.
fn outer_rest(alloc: Global, text: Text, call: &OuterCall) -> Result<Text, AllocError>
    ensures { IfOk result (λ written. written ≡ text ++ flat_map spaced (spec.outer_words call.now)) }
{
    match call {
        OuterCall::Cache(_) => Ok(text),
        OuterCall::Now { clock } => text.number(u64::from(*clock)),
        OuterCall::Start { address, request } => {
            text.hex(alloc, address.bytes())?
                .hex(alloc, request.bytes())
        }
        OuterCall::Poll { ticket } => text.number(*ticket),
        OuterCall::WaitFor { ticket } => text.number(*ticket),
        OuterCall::AnyOf { tickets } => number_list(text, tickets.items()),
        OuterCall::Head { bytes } => text.hex(alloc, bytes.bytes()),
        OuterCall::Piece { bytes } => text.hex(alloc, bytes.bytes()),
        OuterCall::Close { whole } => text.word(close_kind(*whole)),
        OuterCall::Log { endpoint, line } => {
            text.hex(alloc, endpoint.bytes())?.hex(alloc, line.bytes())
        }
    }
}

// The words of the reply.
fn outer_told(alloc: Global, text: Text, reply: &OuterReply) -> Result<Text, AllocError>
    ensures { IfOk result (λ written. written ≡ text ++ flat_map spaced (spec.told_words reply.now)) }
{
    match reply {
        OuterReply::Cache(_) => Ok(text),
        OuterReply::Now(reading) => text.number(*reading),
        OuterReply::Started(ticket) => text.word(b"=")?.number(*ticket),
        OuterReply::NotReady => text.word(b"=")?.word(b"wait"),
        OuterReply::Ready(bytes) => text.word(b"=")?.word(b"ready")?.hex(alloc, bytes.bytes()),
        OuterReply::LinkFailed => text.word(b"=")?.word(b"failed"),
        OuterReply::Index(index) => text.word(b"=")?.number(u64::from(*index)),
        OuterReply::Sent => Ok(text),
    }
}

fn event_line(alloc: Global, text: Text, event: &Event) -> Result<Text, AllocError>
    ensures { IfOk result (λ written. written ≡ text ++ ended (event_text event.now)) }
{
    match event {
        Event::Entry(number) => text.plain(b"c")?.number(*number)?.end_line(),
        Event::Outer { call, reply } => {
            let named = text.plain(outer_name(call))?;
            let asked = outer_rest(alloc, named, call)?;
            outer_told(alloc, asked, reply)?.end_line()
        }
    }
}

/// The lines of events.
pub fn event_lines(alloc: Global, text: Text, events: &[Event]) -> Result<Text, AllocError>
    ensures { IfOk result (λ written. written ≡ text ++ text_of (map event_text events.now)) }
{
    let mut written = text;
    for event in events {
        written = event_line(alloc, written, event)?;
    }
    Ok(written)
}
