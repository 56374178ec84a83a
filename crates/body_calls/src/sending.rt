//! How an answer that is being sent goes on behind its head and at its end.
ghost use Rattle.std.specs.Prelude.{◌≡◌, IfOk};
ghost use Rattle.wasm_memory.specs.Linear.{Linear};
ghost use Rattle.edge_abi.specs.Goes.{Goes};
ghost use Rattle.edge_http_calls.specs.Bodies as rows;
ghost use Rattle.body_calls.specs.Links.{IsUnlinked};
ghost use Rattle.body_calls.specs.UnderWays as spec;

use crate::moving::moved;
use crate::replies::status_of_sent;
use crate::under_way::{BodyStep, Then};
use cache_types::OuterReply;
use edge_abi::{Status, Step};
use edge_body::Body;
use edge_http_calls::{HttpTables, To};
use std::alloc::AllocError;

/// The whole answer was sent, or not.
pub fn sent(tables: &mut HttpTables, response: u32, body: u32, reply: &OuterReply) -> BodyStep
    ensures row { (memory : Linear) → Goes spec.resumed (spec.sent tables.old memory response body (rows.status_of_sent reply.now)) result tables.new memory }
    ensures unlinked { IsUnlinked result }
{
    tables.answered = true;
    match status_of_sent(reply) {
        Status::Ok => {
            tables.responses.take(response);
            tables.bodies.take(body);
            Step::Done(Status::Ok.number())
        }
        status => Step::Done(status.number()),
    }
}

/// An answer was given that isn't whole.
pub fn failed(tables: &mut HttpTables, status: Status) -> BodyStep
    ensures row { (memory : Linear) → Goes spec.resumed (spec.failed tables.old memory status) result tables.new memory }
    ensures unlinked { IsUnlinked result }
{
    tables.answered = true;
    Step::Done(status.number())
}

/// Goes on behind the head of an answer.
pub fn headed(
    tables: &mut HttpTables,
    then: Then,
    left: Body,
    reply: &OuterReply,
) -> Result<BodyStep, AllocError>
    ensures row { IfOk result (λ step. (memory : Linear) → Goes spec.resumed (spec.headed then left tables.old memory (rows.status_of_sent reply.now)) step tables.new memory) }
    ensures unlinked { IfOk result IsUnlinked }
{
    match status_of_sent(reply) {
        Status::Ok => moved(tables, To::Down, then, left),
        status => Ok(failed(tables, status)),
    }
}
