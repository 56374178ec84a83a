//! Reads the events of a guest's block.

ghost use Rattle.std.specs.Prelude.{◌≡◌};
ghost use Rattle.edge_words.specs.Reading.{Gives};
ghost use Rattle.edge_words.specs.Choices.{by_name, made};
ghost use Rattle.journal_reader.specs.Events.{polled_rows, waited_rows, started_in, started_of, now_of, now_said, start_of, start_said, poll_of, poll_said, wait_of, wait_said, any_of, any_said, closed, close_rows, log_of, two_said, head_of, piece_of, event_in};
ghost use Rattle.journal_reader.specs.Events as spec;
ghost use Rattle.journal_reader.specs.Replies.{bytes_said};

use crate::read_numbers::{number, small, tickets};
use crate::read_reply::bytes;
use cache_types::{Event, Items, Octets, OuterCall, OuterReply};
use edge_words::{LineFault, Words};
use std::alloc::Global;

fn polled(alloc: Global, words: Words<'_>) -> Result<OuterReply, LineFault>
    ensures { Gives (λ reply. reply) result (by_name polled_rows words.entry) }
{
    let (name, words) = words.word()?;
    if name == b"wait".as_slice() {
        return words.alone(OuterReply::NotReady);
    }
    if name == b"ready".as_slice() {
        return bytes(alloc, words).map(OuterReply::Ready);
    }
    if name == b"failed".as_slice() {
        return words.alone(OuterReply::LinkFailed);
    }
    Err(LineFault::Bad)
}

fn waited(alloc: Global, words: Words<'_>) -> Result<OuterReply, LineFault>
    ensures { Gives (λ reply. reply) result (by_name waited_rows words.entry) }
{
    let (name, words) = words.word()?;
    if name == b"ready".as_slice() {
        return bytes(alloc, words).map(OuterReply::Ready);
    }
    if name == b"failed".as_slice() {
        return words.alone(OuterReply::LinkFailed);
    }
    Err(LineFault::Bad)
}

fn started(words: Words<'_>) -> Result<Option<u64>, LineFault>
    ensures { Gives (λ ticket. ticket) result (started_in words.entry) }
{
    let (ticket, words) = words.number_or(b"failed")?;
    words.end()?;
    Ok(ticket)
}

fn started_reply(ticket: Option<u64>) -> OuterReply
    ensures { result ≡ started_of ticket }
{
    match ticket {
        None => OuterReply::LinkFailed,
        Some(ticket) => OuterReply::Started(ticket),
    }
}

fn now(words: Words<'_>) -> Result<Event, LineFault>
    ensures { Gives (λ event. event) result (made now_of now_said words.entry) }
{
    let (clock, words) = small(words)?;
    let (reading, words) = words.number()?;
    words.end()?;
    Ok(Event::Outer {
        call: OuterCall::Now { clock },
        reply: OuterReply::Now(reading),
    })
}

fn start(alloc: Global, words: Words<'_>) -> Result<Event, LineFault>
    ensures { Gives (λ event. event) result (made start_of start_said words.entry) }
{
    let (address, words) = words.hex(alloc)?;
    let (request, words) = words.hex(alloc)?;
    let ticket = started(words.exactly(b"=")?)?;
    Ok(Event::Outer {
        call: OuterCall::Start {
            address: Octets::from_vec(address)?,
            request: Octets::from_vec(request)?,
        },
        reply: started_reply(ticket),
    })
}

fn poll(alloc: Global, words: Words<'_>) -> Result<Event, LineFault>
    ensures { Gives (λ event. event) result (made poll_of poll_said words.entry) }
{
    let (ticket, words) = words.number()?;
    let reply = polled(alloc, words.exactly(b"=")?)?;
    Ok(Event::Outer {
        call: OuterCall::Poll { ticket },
        reply,
    })
}

fn wait(alloc: Global, words: Words<'_>) -> Result<Event, LineFault>
    ensures { Gives (λ event. event) result (made wait_of wait_said words.entry) }
{
    let (ticket, words) = words.number()?;
    let reply = waited(alloc, words.exactly(b"=")?)?;
    Ok(Event::Outer {
        call: OuterCall::WaitFor { ticket },
        reply,
    })
}

fn any(alloc: Global, words: Words<'_>) -> Result<Event, LineFault>
    ensures { Gives (λ event. event) result (made any_of any_said words.entry) }
{
    let (word, words) = words.word()?;
    let tickets = tickets(alloc, word)?;
    let words = words.exactly(b"=")?;
    let (index, words) = small(words)?;
    words.end()?;
    Ok(Event::Outer {
        call: OuterCall::AnyOf {
            tickets: Items::of(tickets),
        },
        reply: OuterReply::Index(index),
    })
}

fn sent(call: OuterCall) -> Event
    ensures { result ≡ spec.sent call }
{
    Event::Outer {
        call,
        reply: OuterReply::Sent,
    }
}

fn head(alloc: Global, words: Words<'_>) -> Result<Event, LineFault>
    ensures { Gives (λ event. event) result (made head_of bytes_said words.entry) }
{
    let bytes = bytes(alloc, words)?;
    Ok(sent(OuterCall::Head { bytes }))
}

fn piece(alloc: Global, words: Words<'_>) -> Result<Event, LineFault>
    ensures { Gives (λ event. event) result (made piece_of bytes_said words.entry) }
{
    let bytes = bytes(alloc, words)?;
    Ok(sent(OuterCall::Piece { bytes }))
}

fn is_whole(words: Words<'_>) -> Result<bool, LineFault>
    ensures { Gives (λ whole. whole) result (by_name close_rows words.entry) }
{
    let (kind, words) = words.word()?;
    if kind == b"whole".as_slice() {
        return words.alone(true);
    }
    if kind == b"cut".as_slice() {
        return words.alone(false);
    }
    Err(LineFault::Bad)
}

fn close(words: Words<'_>) -> Result<Event, LineFault>
    ensures { Gives (λ event. event) result (made closed (by_name close_rows) words.entry) }
{
    let whole = is_whole(words)?;
    Ok(sent(OuterCall::Close { whole }))
}

fn log(alloc: Global, words: Words<'_>) -> Result<Event, LineFault>
    ensures { Gives (λ event. event) result (made log_of two_said words.entry) }
{
    let (endpoint, words) = words.hex(alloc)?;
    let (line, words) = words.hex(alloc)?;
    words.end()?;
    Ok(sent(OuterCall::Log {
        endpoint: Octets::from_vec(endpoint)?,
        line: Octets::from_vec(line)?,
    }))
}

/// The event whose first word is the name, and whose others are all words left.
#[tactic(auto, unfolding(crate::specs::Events::event_in))]
pub fn event(alloc: Global, name: &[u8], words: Words<'_>) -> Result<Event, LineFault>
    ensures { Gives (λ event. event) result (event_in name.now words.entry) }
{
    if name == b"c".as_slice() {
        return number(words).map(Event::Entry);
    }
    if name == b"now".as_slice() {
        return now(words);
    }
    if name == b"start".as_slice() {
        return start(alloc, words);
    }
    if name == b"poll".as_slice() {
        return poll(alloc, words);
    }
    if name == b"wait".as_slice() {
        return wait(alloc, words);
    }
    if name == b"any".as_slice() {
        return any(alloc, words);
    }
    if name == b"head".as_slice() {
        return head(alloc, words);
    }
    if name == b"piece".as_slice() {
        return piece(alloc, words);
    }
    if name == b"close".as_slice() {
        return close(words);
    }
    if name == b"log".as_slice() {
        return log(alloc, words);
    }
    Err(LineFault::Bad)
}
