//! What goes on with a row behind the reply to its outer call.
ghost use Rattle.std.specs.Prelude.{◌≡◌, IfOk};
ghost use Rattle.edge_abi.specs.Goes.{Goes};
ghost use Rattle.edge_link.specs.Readings.{Reading, IsReading};
ghost use Rattle.edge_pending.specs.Rows as spec;
ghost use Rattle.edge_pending.specs.Tables.{both};

use crate::asks::{peeked, polled};
use crate::choices::{chosen, picked};
use crate::sends::{gathers_on, received_by, started};
use crate::tables::PendingTables;
use crate::under_way::{PendingStep, UnderWay};
use crate::waits::came;
use cache_types::OuterReply;
use edge_http_calls::HttpTables;
use std::alloc::{AllocError, Global};
use wasm_memory::Memory;

/// Goes on with a row that waited for this reply.
pub fn pending_reply(
    alloc: Global,
    http: &mut HttpTables,
    tables: &mut PendingTables,
    memory: &mut Memory,
    under: UnderWay,
    reply: &OuterReply,
) -> Result<PendingStep, AllocError>
    ensures { (reads : Reading) → IsReading reads
        → IfOk result (λ step. Goes (spec.resumed reads) (spec.resumed reads under (both http.old tables.old) memory.old reply.now) step (both http.new tables.new) memory.new) }
{
    match under {
        UnderWay::Gathering {
            sending,
            hit,
            place,
            had,
            left,
        } => gathers_on(alloc, sending, hit, place, had, left, reply),
        UnderWay::Starting { method, next } => { started(tables, memory, method, next, reply) }
        UnderWay::Receiving { method, places } => {
            received_by(alloc, http, memory, &method, places, reply)
        }
        UnderWay::Polling {
            handle,
            ready,
            response,
            body,
        } => polled(
            alloc, http, tables, memory, handle, ready, response, body, reply,
        ),
        UnderWay::Waiting { handle, places } => {
            came(alloc, http, tables, memory, handle, places, reply)
        }
        UnderWay::Choosing {
            handles,
            index,
            response,
            body,
        } => chosen(
            alloc, http, tables, memory, handles, index, response, body, reply,
        ),
        UnderWay::Picking { index } => Ok(picked(memory, index, reply)),
        UnderWay::Peeking { handle, place } => peeked(alloc, tables, memory, handle, place, reply),
    }
}
