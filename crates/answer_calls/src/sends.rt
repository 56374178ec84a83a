//! `send_downstream`: the head, the parts in pieces, and the end; or the body is streamed on.
ghost use Rattle.std.specs.Prelude.{◌≡◌, ◌==◌, ◌&&◌, ◌||◌, not, Ok, Err, None, is_some, IfOk, IfErr, OnOk};
ghost use Rattle.edge_abi.specs.declared.asked.Step.TheVariants.{Done};
ghost use Rattle.edge_abi.specs.Goes.{Goes};
ghost use Rattle.edge_abi.specs.Tables.{held};
ghost use Rattle.edge_http_calls.specs.Bodies as rows;
ghost use Rattle.body_calls.specs.Links.{IsUnlinked};
ghost use Rattle.body_calls.specs.UnderWays as spec;
ghost use Rattle.answer_calls.specs.Sends as row;

use body_calls::{BodyStep, Then, UnderWay, parts_of};
use cache_types::{Octets, OuterCall};
use edge_abi::{Refusal, Status, Step, unless};
use edge_body::{RequestHead, ResponseHead};
use edge_http_calls::{BodyState, HttpTables, handled};
use http_front::answer_head;
use std::alloc::{AllocError, Global};
use wasm_memory::Memory;

/// The body is held, no answer was given, and streaming is 0 or 1.
fn may_send(state: &BodyState, answered: bool, streaming: u32) -> bool
    ensures { result ≡ (is_some (rows.parts_of state.now) && (not answered && (streaming == 0 || streaming == 1))) }
{
    match state {
        BodyState::Held(_) => !answered && (streaming == 0 || streaming == 1),
        _ => false,
    }
}

/// The response, where it can be sent with this body.
fn sendable(
    tables: &HttpTables,
    response: u32,
    body: u32,
    streaming: u32,
) -> Result<&ResponseHead, Refusal>
    ensures ok { IfOk result (λ head. row.sendable tables.now response body streaming ≡ Ok head.now) }
    ensures err { IfErr result (λ refusal. row.sendable tables.now response body streaming ≡ Err refusal) }
{
    let head = handled(&tables.responses, response)?;
    let state = handled(&tables.bodies, body)?;
    unless(may_send(state, tables.answered, streaming), Status::Inval)?;
    Ok(head)
}

/// What a head tells of the body's length.
fn told_length(tables: &HttpTables, body: u32, streaming: u32) -> Option<u64>
    ensures { result ≡ row.told_length streaming (rows.parts_in (held tables.now.bodies body)) }
{
    if streaming == 1 {
        return None;
    }
    match tables.bodies.get(body) {
        Some(BodyState::Held(parts)) => parts.known_length(),
        _ => Some(0),
    }
}

/// The parts of the answer come behind its head.
fn head_step(
    alloc: Global,
    tables: &mut HttpTables,
    response: u32,
    body: u32,
    streamed: bool,
    bytes: Octets,
) -> Result<BodyStep, AllocError>
    ensures step { IfOk result (λ step. step ≡ row.head_step response body streamed bytes (rows.parts_in (held tables.old.bodies body))) }
    ensures same { OnOk result (tables.new ≡ tables.old) }
{
    let left = parts_of(alloc, tables, body)?;
    let then = Then::Send {
        response,
        body,
        streamed,
    };
    Ok(Step::Outer(OuterCall::Head { bytes }, UnderWay::Heading { then, left }))
}

/// Answers the client: the head, the parts in pieces, and the end; or the body is streamed on from here. `request` is the one
/// that came.
pub fn http_resp_send_downstream(
    alloc: Global,
    tables: &mut HttpTables,
    memory: &mut Memory,
    request: &RequestHead,
    response: u32,
    body: u32,
    streaming: u32,
) -> Result<BodyStep, AllocError>
    ensures row { IfOk result (λ step. Goes spec.resumed (row.http_resp_send_downstream request.now tables.old memory.old response body streaming) step tables.new memory.new) }
    ensures badf { held tables.old.responses response ≡ None → result ≡ Ok (Done 3) }
    ensures badf_body { held tables.old.bodies body ≡ None → result ≡ Ok (Done 3) }
    ensures unlinked { IfOk result IsUnlinked }
{
    match sendable(tables, response, body, streaming) {
        Ok(head) => {
            let length = told_length(tables, body, streaming);
            let bytes = answer_head(alloc, request, head, length)?;
            head_step(alloc, tables, response, body, streaming == 1, bytes)
        }
        Err(Refusal::Told(status)) => Ok(Step::Done(status.number())),
        Err(Refusal::OutOfMemory) => Err(AllocError),
    }
}
