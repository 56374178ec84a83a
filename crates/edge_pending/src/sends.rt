//! Requests that are sent.
ghost use Rattle.std.specs.Prelude.{◌≡◌, Ok, Err, None, is_some, IfOk, IfErr, IsTrue, OnOk};
ghost use Rattle.wasm_memory.specs.Linear.{Linear};
ghost use Rattle.edge_abi.specs.declared.asked.Step.TheVariants.{Done};
ghost use Rattle.edge_abi.specs.declared.status.Refusal.TheVariants.{Told};
ghost use Rattle.edge_abi.specs.declared.status.Status.TheVariants.{Badf};
ghost use Rattle.edge_abi.specs.Goes.{Goes};
ghost use Rattle.edge_abi.specs.Memory as memories;
ghost use Rattle.edge_abi.specs.Memory.{has_range};
ghost use Rattle.edge_abi.specs.Refusals.{Judges};
ghost use Rattle.edge_abi.specs.Tables.{held};
ghost use Rattle.edge_http_calls.specs.Bodies as bodies;
ghost use Rattle.edge_http_calls.specs.Tables.{without_body};
ghost use Rattle.edge_http_calls.specs.declared.tables.HttpTables.{HttpTables as Messages};
ghost use Rattle.edge_link.specs.Readings.{Reading, IsReading};
ghost use Rattle.edge_pending.specs.Backends.{is_address};
ghost use Rattle.edge_pending.specs.Rows as spec;
ghost use Rattle.edge_pending.specs.Tables as tables;
ghost use Rattle.edge_pending.specs.Tables.{both};
ghost use Rattle.edge_pending.specs.declared.tables.PendingTables.{PendingTables as Handles};
ghost use Rattle.edge_pending.specs.declared.under_way.Lead.TheVariants.{Nothing};
ghost use Rattle.edge_pending.specs.declared.sending.Then.TheVariants as thens;

use crate::backends::address_for;
use crate::gathering::{Front, Heard, front_of, heard_in, read_at};
use crate::received::{error, received};
use crate::sending::{Sending, Then};
use crate::tables::{Pending, PendingState, PendingTables, add};
use crate::under_way::{Lead, PendingStep, Places, UnderWay};
use cache_types::{Copied, Octets, OuterCall, OuterReply};
use edge_abi::{Refusal, Status, Step, Table, placed, ranged, unless};
use edge_body::{Body, RequestHead};
use edge_http_calls::{BodyState, HttpTables, handled};
use edge_words::Text;
use fastly_toml::Settings;
use std::alloc::{AllocError, Global};
use wasm_memory::Memory;

/// There is a handle to give.
pub fn room_in<T: Drop>(table: &Table<T>) -> Result<(), Refusal>
    ensures { result ≡ spec.room_in table.now }
{
    unless(!table.is_full(), Status::Limitexceeded)
}

/// There are handles for a response and its body.
pub fn room_for_both(http: &HttpTables) -> Result<(), Refusal>
    ensures { result ≡ spec.room_for_both http.now }
{
    room_in(&http.responses)?;
    room_in(&http.bodies)
}

fn is_held(state: &BodyState) -> bool
    ensures { result ≡ is_some (bodies.parts_of state.now) }
{
    match state {
        BodyState::Held(_) => true,
        _ => false,
    }
}

/// The bytes of a range.
fn octets(alloc: Global, memory: &Memory, p: u32, n: u32) -> Result<Octets, AllocError>
    requires { IsTrue (has_range memory.now p n) }
    ensures { IfOk result (λ octets. octets ≡ memories.octets_at memory.now p n) }
{
    match memory.part(p, n) {
        Some(bytes) => Octets::of(alloc, bytes),
        None => unreachable!(),
    }
}

/// A request, a body and the name of a backend.
fn named<'a>(
    http: &'a HttpTables,
    memory: &Memory,
    h: u32,
    body: u32,
    p: u32,
    n: u32,
) -> Result<&'a BodyState, Refusal>
    ensures ok { IfOk result (λ state. spec.named http.now memory.now h body p n ≡ Ok state.now) }
    ensures range { OnOk result (IsTrue (has_range memory.now p n)) }
    ensures err { IfErr result (λ refusal. spec.named http.now memory.now h body p n ≡ Err refusal) }
{
    handled(&http.requests, h)?;
    let state = handled(&http.bodies, body)?;
    ranged(memory, p, n)?;
    Ok(state)
}

/// The address that a held body is sent to.
fn address_asked(
    alloc: Global,
    settings: &Settings,
    memory: &Memory,
    state: &BodyState,
    p: u32,
    n: u32,
) -> Result<Octets, Refusal>
    requires { IsTrue (has_range memory.now p n) }
    ensures asked { Judges (spec.address_asked settings.now memory.now state.now p n) result }
    ensures address { IfOk result (λ address. IsTrue (is_address address)) }
{
    unless(is_held(state), Status::Inval)?;
    let name = octets(alloc, memory, p, n)?;
    let address = address_for(settings, &name)?;
    Ok(address.copy(alloc)?)
}

fn send_asked(
    alloc: Global,
    http: &HttpTables,
    tables: &PendingTables,
    settings: &Settings,
    memory: &Memory,
    h: u32,
    body: u32,
    p: u32,
    n: u32,
    o1: u32,
    o2: u32,
) -> Result<Octets, Refusal>
    ensures asked { Judges (spec.send_asked (both http.now tables.now) settings.now memory.now h body p n o1 o2) result }
    ensures address { IfOk result (λ address. IsTrue (is_address address)) }
    ensures badf { held http.now.requests h ≡ None → result ≡ Err (Told Badf) }
    ensures unheld { held http.now.bodies body ≡ None → result ≡ Err (Told Badf) }
{
    let state = named(http, memory, h, body, p, n)?;
    placed(memory, o1, 4)?;
    placed(memory, o2, 4)?;
    let address = address_asked(alloc, settings, memory, state, p, n)?;
    room_for_both(http)?;
    Ok(address)
}

fn send_async_asked(
    alloc: Global,
    http: &HttpTables,
    tables: &PendingTables,
    settings: &Settings,
    memory: &Memory,
    h: u32,
    body: u32,
    p: u32,
    n: u32,
    o: u32,
) -> Result<Octets, Refusal>
    ensures asked { Judges (spec.send_async_asked (both http.now tables.now) settings.now memory.now h body p n o) result }
    ensures address { IfOk result (λ address. IsTrue (is_address address)) }
    ensures badf { held http.now.requests h ≡ None → result ≡ Err (Told Badf) }
    ensures unheld { held http.now.bodies body ≡ None → result ≡ Err (Told Badf) }
{
    let state = named(http, memory, h, body, p, n)?;
    placed(memory, o, 4)?;
    let address = address_asked(alloc, settings, memory, state, p, n)?;
    room_in(&tables.pending)?;
    Ok(address)
}

/// Takes a request out.
fn request_taken(http: &mut HttpTables, alloc: Global, h: u32) -> Result<RequestHead, AllocError>
    ensures head { IfOk result (λ head. head ≡ tables.request_in (held http.old.requests h)) }
    ensures taken { http.new ≡ tables.without_request http.old h }
{
    match http.requests.take(h) {
        Some(head) => Ok(head),
        None => new_request(alloc),
    }
}

fn new_request(alloc: Global) -> Result<RequestHead, AllocError>
    ensures { IfOk result (λ head. head ≡ tables.request_in None) }
{
    let method = Octets::of(alloc, b"GET")?;
    let uri = Octets::of(alloc, b"http://localhost/")?;
    Ok(RequestHead::new(method, uri, 2, cache_types::Items::of(Vec::new(alloc))))
}

/// Takes a body out: its parts.
fn parts_taken(http: &mut HttpTables, alloc: Global, body: u32) -> Body
    ensures parts { result ≡ bodies.parts_in (held http.old.bodies body) }
    ensures taken { http.new ≡ without_body http.old body }
{
    match http.bodies.take(body) {
        Some(BodyState::Held(parts)) => parts,
        _ => Body::new(alloc),
    }
}

/// The body is there: the link is asked.
fn started_with(alloc: Global, sending: Sending, had: Text) -> Result<PendingStep, AllocError>
    ensures { (reads : Reading) (t : tables.HttpAndPending) (m : Linear)
        → IfOk result (λ step. Goes (spec.resumed reads) (spec.starts reads sending t m had) step t m) }
{
    let body = Octets::from_vec(had.into_bytes())?;
    let request = sending.bytes(alloc, &body)?;
    let (head, address, next) = sending.into_parts();
    let method = head.method().copy(alloc)?;
    Ok(Step::Outer(
        OuterCall::Start { address, request },
        UnderWay::Starting { method, next },
    ))
}

/// The Read of a hit, or the request, where there is none left.
fn goes_front(alloc: Global, sending: Sending, front: Front) -> Result<PendingStep, AllocError>
    ensures { (reads : Reading) (t : tables.HttpAndPending) (m : Linear)
        → IfOk result (λ step. Goes (spec.resumed reads) (spec.goes_front reads sending t m front) step t m) }
{
    match front {
        Front::Hit {
            had,
            hit,
            place,
            left,
        } => Ok(Step::Outer(
            read_at(hit, place),
            UnderWay::Gathering {
                sending,
                hit,
                place,
                had,
                left,
            },
        )),
        Front::Whole(had) => started_with(alloc, sending, had),
    }
}

/// Gathers the rest of a body behind the bytes that are had.
fn gathers(
    alloc: Global,
    sending: Sending,
    had: Text,
    left: Body,
) -> Result<PendingStep, AllocError>
    ensures { (reads : Reading) (t : tables.HttpAndPending) (m : Linear)
        → IfOk result (λ step. Goes (spec.resumed reads) (spec.gathers reads sending t m had left) step t m) }
{
    let front = front_of(had, left)?;
    goes_front(alloc, sending, front)
}

/// Goes on behind what was heard of a hit.
fn goes_heard(
    alloc: Global,
    sending: Sending,
    hit: u64,
    place: u64,
    had: Text,
    left: Body,
    heard: Heard,
) -> Result<PendingStep, AllocError>
    ensures { (reads : Reading) (t : tables.HttpAndPending) (m : Linear)
        → IfOk result (λ step. Goes (spec.resumed reads) (spec.goes_heard reads sending t m hit place had left heard) step t m) }
{
    match heard {
        Heard::Bytes(bytes) => {
            let place = place.saturating_add(bytes.bytes().len() as u64);
            let had = had.plain(bytes.bytes())?;
            Ok(Step::Outer(
                read_at(hit, place),
                UnderWay::Gathering {
                    sending,
                    hit,
                    place,
                    had,
                    left,
                },
            ))
        }
        Heard::Ended => gathers(alloc, sending, had, left),
        Heard::Failed => Ok(error()),
    }
}

/// Goes on with a body of which a hit was read.
pub fn gathers_on(
    alloc: Global,
    sending: Sending,
    hit: u64,
    place: u64,
    had: Text,
    left: Body,
    reply: &OuterReply,
) -> Result<PendingStep, AllocError>
    ensures { (reads : Reading) (t : tables.HttpAndPending) (m : Linear)
        → IfOk result (λ step. Goes (spec.resumed reads) (spec.gathers_on reads sending t m hit place had left reply.now) step t m) }
{
    let heard = heard_in(alloc, reply)?;
    goes_heard(alloc, sending, hit, place, had, left, heard)
}

/// Takes request and body, and sends them.
fn sends(
    alloc: Global,
    http: &mut HttpTables,
    next: Then,
    h: u32,
    body: u32,
    address: Octets,
) -> Result<PendingStep, AllocError>
    requires { IsTrue (is_address address) }
    ensures { (reads : Reading) (handles : Handles) (m : Linear)
        → IfOk result (λ step. Goes (spec.resumed reads) (spec.sends reads next (both http.old handles) m h body address) step (both http.new handles) m) }
{
    let head = request_taken(http, alloc, h)?;
    let parts = parts_taken(http, alloc, body);
    let sending = Sending::new(head, address, next);
    gathers(alloc, sending, Text::new(alloc), parts)
}

/// Sends a request to a backend, and receives the response.
pub fn http_req_send(
    alloc: Global,
    http: &mut HttpTables,
    tables: &mut PendingTables,
    settings: &Settings,
    memory: &mut Memory,
    h: u32,
    body: u32,
    p: u32,
    n: u32,
    o1: u32,
    o2: u32,
) -> Result<PendingStep, AllocError>
    ensures row { (reads : Reading) → IsReading reads
        → IfOk result (λ step. Goes (spec.resumed reads) (spec.http_req_send reads (both http.old tables.old) settings.now memory.old h body p n o1 o2) step (both http.new tables.new) memory.new) }
    ensures badf { held http.old.requests h ≡ None → result ≡ Ok (Done 3) }
    ensures unheld { held http.old.bodies body ≡ None → result ≡ Ok (Done 3) }
{
    match send_asked(alloc, http, tables, settings, memory, h, body, p, n, o1, o2) {
        Ok(address) => {
            let places = Places {
                lead: Lead::Nothing,
                response: o1,
                body: o2,
            };
            sends(alloc, http, Then::Receive { places }, h, body, address)
        }
        Err(Refusal::Told(status)) => Ok(Step::Done(status.number())),
        Err(Refusal::OutOfMemory) => Err(AllocError),
    }
}

/// Sends a request to a backend; a handle is given for the response.
pub fn http_req_send_async(
    alloc: Global,
    http: &mut HttpTables,
    tables: &mut PendingTables,
    settings: &Settings,
    memory: &mut Memory,
    h: u32,
    body: u32,
    p: u32,
    n: u32,
    o: u32,
) -> Result<PendingStep, AllocError>
    ensures row { (reads : Reading) → IsReading reads
        → IfOk result (λ step. Goes (spec.resumed reads) (spec.http_req_send_async reads (both http.old tables.old) settings.now memory.old h body p n o) step (both http.new tables.new) memory.new) }
    ensures badf { held http.old.requests h ≡ None → result ≡ Ok (Done 3) }
    ensures unheld { held http.old.bodies body ≡ None → result ≡ Ok (Done 3) }
{
    match send_async_asked(alloc, http, tables, settings, memory, h, body, p, n, o) {
        Ok(address) => sends(alloc, http, Then::Keep { place: o }, h, body, address),
        Err(Refusal::Told(status)) => Ok(Step::Done(status.number())),
        Err(Refusal::OutOfMemory) => Err(AllocError),
    }
}

/// The link took a request.
fn started_by(
    tables: &mut PendingTables,
    memory: &mut Memory,
    method: Octets,
    next: Then,
    ticket: u64,
) -> Result<PendingStep, AllocError>
    ensures { (reads : Reading) (http : Messages)
        → IfOk result (λ step. Goes (spec.resumed reads) (spec.started_by reads method next (both http tables.old) memory.old ticket) step (both http tables.new) memory.new) }
{
    match next {
        Then::Receive { places } => Ok(Step::Outer(
            OuterCall::WaitFor { ticket },
            UnderWay::Receiving { method, places },
        )),
        Then::Keep { place } => {
            let state = PendingState::Ticket(ticket);
            add(
                &mut tables.pending,
                memory,
                Pending { method, state },
                place,
            )?;
            Ok(Step::Done(Status::Ok.number()))
        }
    }
}

/// Goes on with a request that the link was given.
pub fn started(
    tables: &mut PendingTables,
    memory: &mut Memory,
    method: Octets,
    next: Then,
    reply: &OuterReply,
) -> Result<PendingStep, AllocError>
    ensures { (reads : Reading) (http : Messages)
        → IfOk result (λ step. Goes (spec.resumed reads) (spec.started reads method next (both http tables.old) memory.old reply.now) step (both http tables.new) memory.new) }
{
    match reply {
        OuterReply::Started(ticket) => started_by(tables, memory, method, next, *ticket),
        _ => Ok(error()),
    }
}

/// Goes on with a request whose response was waited for.
pub fn received_by(
    alloc: Global,
    http: &mut HttpTables,
    memory: &mut Memory,
    method: &Octets,
    places: Places,
    reply: &OuterReply,
) -> Result<PendingStep, AllocError>
    ensures { (reads : Reading) (handles : Handles) → IsReading reads
        → IfOk result (λ step. Goes (spec.resumed reads) (spec.received_by reads method.now places (both http.old handles) memory.old reply.now) step (both http.new handles) memory.new) }
{
    match reply {
        OuterReply::Ready(bytes) => {
            let status = received(alloc, http, memory, places, method, bytes)?;
            Ok(Step::Done(status.number()))
        }
        _ => Ok(error()),
    }
}
