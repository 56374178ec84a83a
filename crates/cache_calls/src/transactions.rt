//! What else a transaction does, and the end of a lookup.
ghost use Rattle.std.specs.Prelude.{◌≡◌, Ok, Err, None, IfOk, IfErr, IfSome, OnOk};
ghost use Rattle.cache_types.specs.declared.outer.OuterCall.TheVariants as call;
ghost use Rattle.edge_abi.specs.declared.asked.Step.TheVariants.{Done};
ghost use Rattle.edge_abi.specs.declared.status.Status.TheVariants.{Badf};
ghost use Rattle.edge_abi.specs.declared.status.Refusal.TheVariants.{Told};
ghost use Rattle.edge_abi.specs.Goes.{Goes, MayMake};
ghost use Rattle.edge_abi.specs.Refusals.{Judges};
ghost use Rattle.edge_abi.specs.Tables.{held};
ghost use Rattle.cache_calls.specs.Asks as asks;
ghost use Rattle.cache_calls.specs.Options.{IsRecord};
ghost use Rattle.cache_calls.specs.Replies.{resumed};
ghost use Rattle.cache_calls.specs.Rows as rows;
ghost use Rattle.cache_calls.specs.Tables.{both};

use crate::tables::{CacheHandle, CacheTables};
use crate::under_way::{Asking, CacheStep, UnderWay};
use crate::writings::{MOST_MASK, write_options, writing_at};
use cache_types::CacheCall;
use edge_abi::{Refusal, Status, Step, unless};
use edge_http_calls::{HttpTables, handled};
use std::alloc::{AllocError, Global};
use wasm_memory::Memory;

/// A handle of a transaction, behind the tests of a record.
fn update_given<'a>(
    http: &HttpTables,
    tables: &'a CacheTables,
    memory: &Memory,
    h: u32,
    mask: u32,
    q: u32,
) -> Result<&'a CacheHandle, Refusal>
    ensures ok { IfOk result (λ handle. asks.update_given (both http.now tables.now) memory.now h mask q ≡ Ok handle.now) }
    ensures inside { OnOk result (IsRecord memory.now mask q) }
    ensures err { IfErr result (λ refusal. asks.update_given (both http.now tables.now) memory.now h mask q ≡ Err refusal) }
{
    let handle = handled(&tables.handles, h)?;
    write_options(http, memory, mask, q)?;
    unless(mask <= MOST_MASK, Status::Unsupported)?;
    unless(!handle.kind.is_plain(), Status::Inval)?;
    Ok(handle)
}

fn update_asked(
    alloc: Global,
    http: &HttpTables,
    tables: &CacheTables,
    memory: &Memory,
    h: u32,
    mask: u32,
    q: u32,
) -> Result<Asking, Refusal>
    ensures asked { Judges (asks.update_asked (both http.now tables.now) memory.now h mask q) result }
    ensures may { IfOk result (λ a. MayMake (call.Cache a.call)) }
    ensures badf { held tables.now.handles h ≡ None → result ≡ Err (Told Badf) }
{
    let handle = update_given(http, tables, memory, h, mask, q)?;
    let writing = writing_at(alloc, memory, mask, q)?;
    Ok(Asking {
        call: CacheCall::TxUpdate {
            tx: handle.name,
            terms: writing.terms,
        },
        under: UnderWay::Telling,
    })
}

/// New terms for the object that a transaction was told to renew.
pub fn cache_transaction_update(
    alloc: Global,
    http: &mut HttpTables,
    tables: &mut CacheTables,
    memory: &mut Memory,
    h: u32,
    mask: u32,
    q: u32,
) -> Result<CacheStep, AllocError>
    ensures row { IfOk result (λ step. Goes resumed (rows.cache_transaction_update (both http.old tables.old) memory.old h mask q) step (both http.new tables.new) memory.new) }
    ensures badf { held tables.old.handles h ≡ None → result ≡ Ok (Done 3) }
{
    match update_asked(alloc, http, tables, memory, h, mask, q) {
        Ok(asking) => Ok(asking.step()),
        Err(Refusal::Told(status)) => Ok(Step::Done(status.number())),
        Err(Refusal::OutOfMemory) => Err(AllocError),
    }
}

fn cancel_asked(tables: &CacheTables, h: u32) -> Result<Asking, Refusal>
    ensures asked { Judges (asks.cancel_asked tables.now h) result }
    ensures may { IfOk result (λ a. MayMake (call.Cache a.call)) }
    ensures badf { held tables.now.handles h ≡ None → result ≡ Err (Told Badf) }
{
    let handle = handled(&tables.handles, h)?;
    unless(!handle.kind.is_plain(), Status::Inval)?;
    Ok(Asking {
        call: CacheCall::TxCancel { tx: handle.name },
        under: UnderWay::Telling,
    })
}

/// Gives up what a transaction was told to do.
pub fn cache_transaction_cancel(
    _alloc: Global,
    http: &mut HttpTables,
    tables: &mut CacheTables,
    memory: &mut Memory,
    h: u32,
) -> Result<CacheStep, AllocError>
    ensures row { IfOk result (λ step. Goes resumed (rows.cache_transaction_cancel (both http.old tables.old) memory.old h) step (both http.new tables.new) memory.new) }
    ensures badf { held tables.old.handles h ≡ None → result ≡ Ok (Done 3) }
{
    match cancel_asked(tables, h) {
        Ok(asking) => Ok(asking.step()),
        Err(Refusal::Told(status)) => Ok(Step::Done(status.number())),
        Err(Refusal::OutOfMemory) => Err(AllocError),
    }
}

/// The call that closes the lookup of a handle. A streamed-back handle has none.
fn close_asked(tables: &CacheTables, h: u32) -> Result<Option<Asking>, Refusal>
    ensures asked { result ≡ asks.close_asked tables.now h }
    ensures may { IfOk result (λ asked. IfSome asked (λ a. MayMake (call.Cache a.call))) }
    ensures badf { held tables.now.handles h ≡ None → result ≡ Err (Told Badf) }
{
    let handle = handled(&tables.handles, h)?;
    if handle.kind.is_streamed() {
        return Ok(None);
    }
    Ok(Some(Asking {
        call: CacheCall::Close { tx: handle.name },
        under: UnderWay::Closing { handle: h },
    }))
}

/// Ends a lookup. A streamed-back handle is dropped.
pub fn cache_close(
    _alloc: Global,
    http: &mut HttpTables,
    tables: &mut CacheTables,
    memory: &mut Memory,
    h: u32,
) -> Result<CacheStep, AllocError>
    ensures row { IfOk result (λ step. Goes resumed (rows.cache_close (both http.old tables.old) memory.old h) step (both http.new tables.new) memory.new) }
    ensures badf { held tables.old.handles h ≡ None → result ≡ Ok (Done 3) }
{
    match close_asked(tables, h) {
        Ok(Some(asking)) => Ok(asking.step()),
        Ok(None) => {
            tables.handles.take(h);
            Ok(Step::Done(Status::Ok.number()))
        }
        Err(Refusal::Told(status)) => Ok(Step::Done(status.number())),
        Err(Refusal::OutOfMemory) => Err(AllocError),
    }
}
