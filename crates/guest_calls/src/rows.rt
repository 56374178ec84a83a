//! A call from its start to the number that it answers, whichever crate has its row.
ghost use Rattle.std.specs.Prelude.{◌≡◌, IfOk};
ghost use Rattle.edge_abi.specs.Goes.{Goes};
ghost use Rattle.body_calls.specs.Links.{IsUnlinked};
ghost use Rattle.guest_calls.specs.Rows.{called};
ghost use Rattle.guest_calls.specs.Unders.{resumed};

use crate::call::RowCall;
use crate::heard::{cache_heard, parts_heard, store_heard};
use crate::steps::{
    asking_step, handle_step, http_step, outside_step, parts_step, store_step, wasi_step,
};
use crate::tables::GuestTables;
use crate::words::{long, words_of};
use body_calls::UnderWay as PartsUnder;
use cache_calls::UnderWay as CacheUnder;
use cache_types::OuterReply;
use edge_abi::Step;
use edge_stores::UnderWay as StoreUnder;
use std::alloc::{AllocError, Global};
use wasm_memory::Memory;
use wasm_types::Value;

/// A row that waits for the reply to its outer call, by its crate.
#[derive(Drop)]
pub enum Under {
    Parts(PartsUnder),
    Store(StoreUnder),
    Cache(CacheUnder),
}

/// What a row has come to.
pub type GuestStep = Step<Under>;

/// Starts the row of a call.
pub fn row(
    alloc: Global,
    call: RowCall,
    arguments: &[Value],
    tables: &mut GuestTables,
    memory: &mut Memory,
) -> Result<GuestStep, AllocError>
    ensures row { IfOk result (λ step. Goes resumed (called call arguments.now tables.old memory.old) step tables.new memory.new) }
    ensures unlinked { IfOk result IsUnlinked }
{
    let version = long(arguments, 0);
    let words = words_of(arguments);
    match call {
        RowCall::Http(call) => http_step(alloc, call, words, tables, memory),
        RowCall::Parts(call) => parts_step(alloc, call, words, tables, memory),
        RowCall::Store(call) => store_step(alloc, call, version, words, tables, memory),
        RowCall::Wasi(call) => wasi_step(alloc, call, words, tables, memory),
        RowCall::Outside(call) => outside_step(alloc, call, words, tables, memory),
        RowCall::Handle(call) => handle_step(alloc, call, words, tables, memory),
        RowCall::Asking(call) => asking_step(alloc, call, words, tables, memory),
    }
}

/// Goes on with a row behind the reply to its outer call.
pub fn goes_on(
    alloc: Global,
    tables: &mut GuestTables,
    memory: &mut Memory,
    under: Under,
    reply: &OuterReply,
) -> Result<GuestStep, AllocError>
    ensures row { IfOk result (λ step. Goes resumed (resumed under tables.old memory.old reply.now) step tables.new memory.new) }
    ensures unlinked { IfOk result IsUnlinked }
{
    match under {
        Under::Parts(under) => parts_heard(alloc, tables, memory, under, reply),
        Under::Store(under) => Ok(store_heard(tables, memory, under, reply)),
        Under::Cache(under) => cache_heard(alloc, tables, memory, under, reply),
    }
}
