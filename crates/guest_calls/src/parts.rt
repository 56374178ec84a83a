//! The rows on the parts of bodies, by their calls.
ghost use Rattle.std.specs.Prelude.{◌≡◌, IfOk};
ghost use Rattle.edge_abi.specs.Goes.{Goes};
ghost use Rattle.body_calls.specs.Links.{IsUnlinked};
ghost use Rattle.body_calls.specs.UnderWays as parts;
ghost use Rattle.guest_calls.specs.Rows as spec;

use crate::call::PartsCall;
use crate::words::Words;
use answer_calls::http_resp_send_downstream;
use body_calls::{
    BodyStep, http_body_abandon, http_body_append, http_body_close, http_body_read, http_body_write,
};
use edge_body::RequestHead;
use edge_http_calls::HttpTables;
use std::alloc::{AllocError, Global};
use wasm_memory::Memory;

/// Starts the row of a call; `request` is the one that came.
pub fn parts_row(
    alloc: Global,
    call: PartsCall,
    words: Words,
    request: &RequestHead,
    tables: &mut HttpTables,
    memory: &mut Memory,
) -> Result<BodyStep, AllocError>
    ensures row { IfOk result (λ step. Goes parts.resumed (spec.parts_row call request.now words tables.old memory.old) step tables.new memory.new) }
    ensures unlinked { IfOk result IsUnlinked }
{
    match call {
        PartsCall::Append => http_body_append(alloc, tables, memory, words.a, words.b),
        PartsCall::Read => http_body_read(
            alloc, tables, memory, words.a, words.b, words.c, words.d,
        ),
        PartsCall::Write => http_body_write(
            alloc, tables, memory, words.a, words.b, words.c, words.d, words.e,
        ),
        PartsCall::Close => http_body_close(alloc, tables, memory, words.a),
        PartsCall::Abandon => http_body_abandon(alloc, tables, memory, words.a),
        PartsCall::SendDownstream => http_resp_send_downstream(
            alloc, tables, memory, request, words.a, words.b, words.c,
        ),
    }
}
