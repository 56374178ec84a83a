//! The rows that insert.
ghost use Rattle.std.specs.Prelude.{◌≡◌, Ok, Err, None, IsTrue, IfOk, IfErr, IfSome, OnOk, option_copied};
ghost use Rattle.cache_types.specs.declared.outer.OuterCall.TheVariants as call;
ghost use Rattle.edge_abi.specs.declared.asked.Step.TheVariants.{Done};
ghost use Rattle.edge_abi.specs.declared.status.Status.TheVariants.{Badf};
ghost use Rattle.edge_abi.specs.declared.status.Refusal.TheVariants.{Told};
ghost use Rattle.edge_abi.specs.Goes.{Goes, MayMake};
ghost use Rattle.edge_abi.specs.Memory.{has_range};
ghost use Rattle.edge_abi.specs.Refusals.{Judges};
ghost use Rattle.edge_abi.specs.Tables.{held};
ghost use Rattle.edge_body.specs.Heads.{are_fields};
ghost use Rattle.cache_calls.specs.Asks as asks;
ghost use Rattle.cache_calls.specs.Options.{IsRecord};
ghost use Rattle.cache_calls.specs.Replies.{resumed};
ghost use Rattle.cache_calls.specs.Rows as rows;
ghost use Rattle.cache_calls.specs.Tables.{both};

use crate::headers::headers_of;
use crate::keys::bytes_at;
use crate::tables::{CacheHandle, CacheTables};
use crate::under_way::{Asking, CacheStep, UnderWay};
use crate::writings::{MOST_MASK, write_options, writing_at};
use cache_types::{CacheCall, Copied, Fields, Octets, is_cache_key};
use edge_abi::{Refusal, Status, Step, placed, ranged, unless};
use edge_http_calls::{HttpTables, handled};
use std::alloc::{AllocError, Global};
use wasm_memory::Memory;

/// The headers that are given, behind the tests of a key, of a record and of a place.
fn insert_given<'a>(
    http: &'a HttpTables,
    memory: &Memory,
    p: u32,
    n: u32,
    mask: u32,
    q: u32,
    o: u32,
) -> Result<Option<&'a Fields>, Refusal>
    ensures ok { IfOk result (λ given. asks.insert_given http.now memory.now p n mask q o ≡ Ok (option_copied given)) }
    ensures kept { IfOk result (λ given. IfSome given (λ fields. IsTrue (are_fields fields.now))) }
    ensures range { OnOk result (IsTrue (has_range memory.now p n)) }
    ensures inside { OnOk result (IsRecord memory.now mask q) }
    ensures err { IfErr result (λ refusal. asks.insert_given http.now memory.now p n mask q o ≡ Err refusal) }
{
    ranged(memory, p, n)?;
    let given = write_options(http, memory, mask, q)?;
    placed(memory, o, 4)?;
    unless(mask <= MOST_MASK, Status::Unsupported)?;
    unless(n != 0, Status::Inval)?;
    Ok(given)
}

fn insert_asked(
    alloc: Global,
    http: &HttpTables,
    memory: &Memory,
    p: u32,
    n: u32,
    mask: u32,
    q: u32,
    o: u32,
) -> Result<Asking, Refusal>
    ensures asked { Judges (asks.insert_asked http.now memory.now p n mask q o) result }
    ensures may { IfOk result (λ a. MayMake (call.Cache a.call)) }
{
    let given = insert_given(http, memory, p, n, mask, q, o)?;
    let writing = writing_at(alloc, memory, mask, q)?;
    let key = bytes_at(memory, p, n);
    unless(is_cache_key(key), Status::Limitexceeded)?;
    unless(!http.bodies.is_full(), Status::Limitexceeded)?;
    Ok(Asking {
        call: CacheCall::Insert {
            key: Octets::of(alloc, key)?,
            headers: headers_of(alloc, given)?,
            writing,
        },
        under: UnderWay::Inserting { place: o },
    })
}

/// Makes a new object; its body fills it.
pub fn cache_insert(
    alloc: Global,
    http: &mut HttpTables,
    tables: &mut CacheTables,
    memory: &mut Memory,
    p: u32,
    n: u32,
    mask: u32,
    q: u32,
    o: u32,
) -> Result<CacheStep, AllocError>
    ensures { IfOk result (λ step. Goes resumed (rows.cache_insert (both http.old tables.old) memory.old p n mask q o) step (both http.new tables.new) memory.new) }
{
    match insert_asked(alloc, http, memory, p, n, mask, q, o) {
        Ok(asking) => Ok(asking.step()),
        Err(Refusal::Told(status)) => Ok(Step::Done(status.number())),
        Err(Refusal::OutOfMemory) => Err(AllocError),
    }
}

/// A handle of a transaction, behind the tests of a record and of a place.
fn tx_given<'a>(
    http: &HttpTables,
    tables: &'a CacheTables,
    memory: &Memory,
    h: u32,
    mask: u32,
    q: u32,
    o: u32,
) -> Result<&'a CacheHandle, Refusal>
    ensures ok { IfOk result (λ handle. asks.tx_given (both http.now tables.now) memory.now h mask q o ≡ Ok handle.now) }
    ensures inside { OnOk result (IsRecord memory.now mask q) }
    ensures err { IfErr result (λ refusal. asks.tx_given (both http.now tables.now) memory.now h mask q o ≡ Err refusal) }
{
    let handle = handled(&tables.handles, h)?;
    write_options(http, memory, mask, q)?;
    placed(memory, o, 4)?;
    unless(mask <= MOST_MASK, Status::Unsupported)?;
    unless(!handle.kind.is_plain(), Status::Inval)?;
    Ok(handle)
}

fn tx_insert_asked(
    alloc: Global,
    http: &HttpTables,
    tables: &CacheTables,
    memory: &Memory,
    h: u32,
    mask: u32,
    q: u32,
    o: u32,
) -> Result<Asking, Refusal>
    ensures asked { Judges (asks.tx_insert_asked (both http.now tables.now) memory.now h mask q o) result }
    ensures may { IfOk result (λ a. MayMake (call.Cache a.call)) }
    ensures badf { held tables.now.handles h ≡ None → result ≡ Err (Told Badf) }
{
    let handle = tx_given(http, tables, memory, h, mask, q, o)?;
    let writing = writing_at(alloc, memory, mask, q)?;
    unless(!http.bodies.is_full(), Status::Limitexceeded)?;
    Ok(Asking {
        call: CacheCall::TxInsert {
            tx: handle.name,
            writing,
        },
        under: UnderWay::Inserting { place: o },
    })
}

/// Makes the object that a transaction was told to insert.
pub fn cache_transaction_insert(
    alloc: Global,
    http: &mut HttpTables,
    tables: &mut CacheTables,
    memory: &mut Memory,
    h: u32,
    mask: u32,
    q: u32,
    o: u32,
) -> Result<CacheStep, AllocError>
    ensures row { IfOk result (λ step. Goes resumed (rows.cache_transaction_insert (both http.old tables.old) memory.old h mask q o) step (both http.new tables.new) memory.new) }
    ensures badf { held tables.old.handles h ≡ None → result ≡ Ok (Done 3) }
{
    match tx_insert_asked(alloc, http, tables, memory, h, mask, q, o) {
        Ok(asking) => Ok(asking.step()),
        Err(Refusal::Told(status)) => Ok(Step::Done(status.number())),
        Err(Refusal::OutOfMemory) => Err(AllocError),
    }
}

/// The same with two places.
fn back_given<'a>(
    http: &HttpTables,
    tables: &'a CacheTables,
    memory: &Memory,
    h: u32,
    mask: u32,
    q: u32,
    o: u32,
    back: u32,
) -> Result<&'a CacheHandle, Refusal>
    ensures ok { IfOk result (λ handle. asks.back_given (both http.now tables.now) memory.now h mask q o back ≡ Ok handle.now) }
    ensures inside { OnOk result (IsRecord memory.now mask q) }
    ensures err { IfErr result (λ refusal. asks.back_given (both http.now tables.now) memory.now h mask q o back ≡ Err refusal) }
{
    let handle = handled(&tables.handles, h)?;
    write_options(http, memory, mask, q)?;
    placed(memory, o, 4)?;
    placed(memory, back, 4)?;
    unless(mask <= MOST_MASK, Status::Unsupported)?;
    unless(!handle.kind.is_plain(), Status::Inval)?;
    Ok(handle)
}

fn stream_back_asked(
    alloc: Global,
    http: &HttpTables,
    tables: &CacheTables,
    memory: &Memory,
    h: u32,
    mask: u32,
    q: u32,
    o: u32,
    back: u32,
) -> Result<Asking, Refusal>
    ensures asked { Judges (asks.stream_back_asked (both http.now tables.now) memory.now h mask q o back) result }
    ensures may { IfOk result (λ a. MayMake (call.Cache a.call)) }
    ensures badf { held tables.now.handles h ≡ None → result ≡ Err (Told Badf) }
{
    let handle = back_given(http, tables, memory, h, mask, q, o, back)?;
    let writing = writing_at(alloc, memory, mask, q)?;
    unless(!http.bodies.is_full(), Status::Limitexceeded)?;
    unless(!tables.handles.is_full(), Status::Limitexceeded)?;
    let under = UnderWay::StreamingBack {
        place: o,
        back,
        terms: writing.terms.copy(alloc)?,
        length: writing.length,
    };
    Ok(Asking {
        call: CacheCall::TxInsert {
            tx: handle.name,
            writing,
        },
        under,
    })
}

/// The same, and a cache handle on the new object.
pub fn cache_transaction_insert_and_stream_back(
    alloc: Global,
    http: &mut HttpTables,
    tables: &mut CacheTables,
    memory: &mut Memory,
    h: u32,
    mask: u32,
    q: u32,
    o: u32,
    back: u32,
) -> Result<CacheStep, AllocError>
    ensures row { IfOk result (λ step. Goes resumed (rows.cache_transaction_insert_and_stream_back (both http.old tables.old) memory.old h mask q o back) step (both http.new tables.new) memory.new) }
    ensures badf { held tables.old.handles h ≡ None → result ≡ Ok (Done 3) }
{
    match stream_back_asked(alloc, http, tables, memory, h, mask, q, o, back) {
        Ok(asking) => Ok(asking.step()),
        Err(Refusal::Told(status)) => Ok(Step::Done(status.number())),
        Err(Refusal::OutOfMemory) => Err(AllocError),
    }
}
