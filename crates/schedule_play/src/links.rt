//! Calls that aren't the cache's: the clock's, a link's, and what is sent.

ghost use Rattle.std.specs.Prelude.{◌≡◌, ◌≤◌, false, IsTrue, Some, length};
ghost use Rattle.std.specs.List.{All};
ghost use Rattle.cache_types.specs.declared.outer.OuterCall.TheVariants as outer;
ghost use Rattle.cache_types.specs.Limits.{is_from_to};
ghost use Rattle.edge_outside.specs.Made.{Made};
ghost use Rattle.player.specs.May.{is_address};
ghost use Rattle.player.specs.Runs.{is_answer, is_link};
ghost use Rattle.schedule_play.specs.Blocks.{is_cache};
ghost use Rattle.schedule_play.specs.Links.{Asks, calls_of};
ghost use Rattle.schedule_play.specs.Schedule.{outer_reply};
ghost use Rattle.schedule_play.specs.Tickets.{MayAskLink, MovesTickets};

use cache_types::{Numbers, Octets, OuterCall, OuterReply};
use edge_outside::{IoFault, Link};
use std::alloc::Global;
use std::str;

/// Sends a request. There is no reply where no memory was found.
fn start<L: Link>(
    alloc: Global,
    link: &mut L,
    address: &Octets,
    request: &Octets,
) -> Option<OuterReply>
    requires { IsTrue (is_address address.now) }
    ensures call { Asks L.starts L.polls L.waits L.chooses link.old (outer.Start address.now request.now) result link.new }
    ensures tickets { MovesTickets (L.is_open link.old) (L.is_open link.new) (outer.Start address.now request.now) result }
    ensures answer { (reply : _) → result ≡ Some reply → IsTrue (is_answer (outer.Start address.now request.now) reply) }
{
    match str::from_utf8(address.bytes()) {
        Ok(text) => match link.start(alloc, text, request.bytes()) {
            Ok(ticket) => Some(OuterReply::Started(ticket)),
            Err(IoFault::Failed) => Some(OuterReply::LinkFailed),
            Err(IoFault::OutOfMemory) => None,
        },
        Err(_) => unreachable!(),
    }
}

/// Asks for a response.
fn poll<L: Link>(alloc: Global, link: &mut L, ticket: u64) -> Option<OuterReply>
    requires { L.is_open link.old ticket }
    ensures call { Asks L.starts L.polls L.waits L.chooses link.old (outer.Poll ticket) result link.new }
    ensures tickets { MovesTickets (L.is_open link.old) (L.is_open link.new) (outer.Poll ticket) result }
    ensures answer { (reply : _) → result ≡ Some reply → IsTrue (is_answer (outer.Poll ticket) reply) }
{
    match link.poll(alloc, ticket) {
        Ok(None) => Some(OuterReply::NotReady),
        Ok(Some(bytes)) => match Octets::from_vec(bytes) {
            Ok(bytes) => Some(OuterReply::Ready(bytes)),
            Err(_) => None,
        },
        Err(IoFault::Failed) => Some(OuterReply::LinkFailed),
        Err(IoFault::OutOfMemory) => None,
    }
}

/// Waits for a response.
fn wait<L: Link>(alloc: Global, link: &mut L, ticket: u64) -> Option<OuterReply>
    requires { L.is_open link.old ticket }
    ensures call { Asks L.starts L.polls L.waits L.chooses link.old (outer.WaitFor ticket) result link.new }
    ensures tickets { MovesTickets (L.is_open link.old) (L.is_open link.new) (outer.WaitFor ticket) result }
    ensures answer { (reply : _) → result ≡ Some reply → IsTrue (is_answer (outer.WaitFor ticket) reply) }
{
    match link.wait(alloc, ticket) {
        Ok(bytes) => match Octets::from_vec(bytes) {
            Ok(bytes) => Some(OuterReply::Ready(bytes)),
            Err(_) => None,
        },
        Err(IoFault::Failed) => Some(OuterReply::LinkFailed),
        Err(IoFault::OutOfMemory) => None,
    }
}

/// Asks which response is there.
fn any_of<L: Link>(link: &mut L, tickets: &Numbers) -> Option<OuterReply>
    requires count { IsTrue (is_from_to 1 100 (length tickets.now)) }
    requires open { All (L.is_open link.old) tickets.now }
    ensures call { Asks L.starts L.polls L.waits L.chooses link.old (outer.AnyOf tickets.now) result link.new }
    ensures tickets { MovesTickets (L.is_open link.old) (L.is_open link.new) (outer.AnyOf tickets.now) result }
    ensures answer { (reply : _) → result ≡ Some reply → IsTrue (is_answer (outer.AnyOf tickets.now) reply) }
{
    let index = link.ready(tickets.items());
    Some(OuterReply::Index(index as u32))
}

/// The reply to a call that isn't the cache's, and none where no memory was found.
pub fn reply_to<L: Link>(
    alloc: Global,
    link: &mut L,
    reading: u64,
    call: &OuterCall,
) -> Option<OuterReply>
    requires other { is_cache call.now ≡ false }
    requires may { MayAskLink (L.is_open link.old) call.now }
    ensures calls { Made (Asks L.starts L.polls L.waits L.chooses) link.old (calls_of call.now result) link.new }
    ensures tickets { MovesTickets (L.is_open link.old) (L.is_open link.new) call.now result }
    ensures answer { (reply : _) → result ≡ Some reply → IsTrue (is_answer call.now reply) }
    ensures own { (reply : _) → result ≡ Some reply → reply ≡ outer_reply reading reply call.now }
{
    match call {
        OuterCall::Now { .. } => Some(OuterReply::Now(reading)),
        OuterCall::Start { address, request } => start(alloc, link, address, request),
        OuterCall::Poll { ticket } => poll(alloc, link, *ticket),
        OuterCall::WaitFor { ticket } => wait(alloc, link, *ticket),
        OuterCall::AnyOf { tickets } => any_of(link, tickets),
        _ => Some(OuterReply::Sent),
    }
}
