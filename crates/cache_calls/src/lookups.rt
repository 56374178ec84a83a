//! The rows that look something up, or put that off.
ghost use Rattle.std.specs.Prelude.{◌≡◌, Ok, Err, None, IsTrue, IfOk, IfErr, IfSome, OnOk, option_copied};
ghost use Rattle.cache_types.specs.Limits.{is_key};
ghost use Rattle.cache_types.specs.declared.outer.OuterCall.TheVariants as call;
ghost use Rattle.edge_abi.specs.declared.asked.Step.TheVariants.{Done};
ghost use Rattle.edge_abi.specs.declared.status.Status.TheVariants.{Badf};
ghost use Rattle.edge_abi.specs.declared.status.Refusal.TheVariants.{Told};
ghost use Rattle.edge_abi.specs.Memory.{has_range, octets_at};
ghost use Rattle.edge_body.specs.Heads.{are_fields};
ghost use Rattle.edge_abi.specs.Goes.{Ends, Goes, MayMake};
ghost use Rattle.edge_abi.specs.Refusals.{Judges};
ghost use Rattle.edge_abi.specs.Tables.{held};
ghost use Rattle.cache_calls.specs.Asks as asks;
ghost use Rattle.cache_calls.specs.Replies.{resumed};
ghost use Rattle.cache_calls.specs.Rows as rows;
ghost use Rattle.cache_calls.specs.Tables.{both};

use crate::headers::{headers_of, request_given};
use crate::keys::bytes_at;
use crate::kinds::CacheKind;
use crate::tables::{BusyHandle, CacheTables, add};
use crate::under_way::{Asking, CacheStep, UnderWay};
use cache_types::{CacheCall, Copied, Fields, Octets, is_cache_key};
use edge_abi::{Refusal, Status, Step, placed, ranged, unless};
use edge_http_calls::{HttpTables, handled};
use std::alloc::{AllocError, Global};
use wasm_memory::Memory;

/// The bytes of a lookup's options.
const OPTIONS: u32 = 4;

/// The greatest mask of a lookup: bits 1 and 2.
const MOST_MASK: u32 = 3;

/// The headers that are given, behind the tests of a key and of a lookup's options.
fn wanted_given<'a>(
    http: &'a HttpTables,
    memory: &Memory,
    p: u32,
    n: u32,
    mask: u32,
    q: u32,
    o: u32,
) -> Result<Option<&'a Fields>, Refusal>
    ensures ok { IfOk result (λ given. asks.wanted_given http.now memory.now p n mask q o ≡ Ok (option_copied given)) }
    ensures kept { IfOk result (λ given. IfSome given (λ fields. IsTrue (are_fields fields.now))) }
    ensures range { OnOk result (IsTrue (has_range memory.now p n)) }
    ensures key { OnOk result (IsTrue (is_key (octets_at memory.now p n))) }
    ensures err { IfErr result (λ refusal. asks.wanted_given http.now memory.now p n mask q o ≡ Err refusal) }
{
    ranged(memory, p, n)?;
    ranged(memory, q, OPTIONS)?;
    let given = request_given(http, memory, mask, u64::from(q))?;
    placed(memory, o, 4)?;
    unless(mask <= MOST_MASK, Status::Unsupported)?;
    unless(n != 0, Status::Inval)?;
    unless(is_cache_key(bytes_at(memory, p, n)), Status::Limitexceeded)?;
    Ok(given)
}

/// What is looked up.
fn wanted(
    alloc: Global,
    memory: &Memory,
    p: u32,
    n: u32,
    given: Option<&Fields>,
) -> Result<BusyHandle, AllocError>
    requires range { IsTrue (has_range memory.now p n) }
    requires key { IsTrue (is_key (octets_at memory.now p n)) }
    requires fields { IfSome given (λ fields. IsTrue (are_fields fields.now)) }
    ensures { IfOk result (λ wanted. wanted ≡ asks.wanted memory.now p n (option_copied given.entry)) }
{
    let key = Octets::of(alloc, bytes_at(memory, p, n))?;
    let headers = headers_of(alloc, given)?;
    Ok(BusyHandle::new(key, headers))
}

/// The lookup that is wanted, as a call.
fn lookup_call(kind: CacheKind, wanted: BusyHandle) -> CacheCall
    ensures call { result ≡ asks.lookup_call kind wanted }
    ensures may { MayMake (call.Cache result) }
{
    let (key, headers) = wanted.into_parts();
    match kind {
        CacheKind::Lookup => CacheCall::Lookup { key, headers },
        _ => CacheCall::TxLookup { key, headers },
    }
}

fn lookup_asked(
    alloc: Global,
    http: &HttpTables,
    tables: &CacheTables,
    memory: &Memory,
    kind: CacheKind,
    p: u32,
    n: u32,
    mask: u32,
    q: u32,
    o: u32,
) -> Result<Asking, Refusal>
    ensures asked { Judges (asks.lookup_asked kind (both http.now tables.now) memory.now p n mask q o) result }
    ensures may { IfOk result (λ a. MayMake (call.Cache a.call)) }
{
    let given = wanted_given(http, memory, p, n, mask, q, o)?;
    unless(!tables.handles.is_full(), Status::Limitexceeded)?;
    let wanted = wanted(alloc, memory, p, n, given)?;
    Ok(Asking {
        call: lookup_call(kind, wanted),
        under: UnderWay::Looking { kind, place: o },
    })
}

/// Looks a key up.
pub fn cache_lookup(
    alloc: Global,
    http: &mut HttpTables,
    tables: &mut CacheTables,
    memory: &mut Memory,
    p: u32,
    n: u32,
    mask: u32,
    q: u32,
    o: u32,
) -> Result<CacheStep, AllocError>
    ensures { IfOk result (λ step. Goes resumed (rows.cache_lookup (both http.old tables.old) memory.old p n mask q o) step (both http.new tables.new) memory.new) }
{
    let kind = CacheKind::Lookup;
    match lookup_asked(alloc, http, tables, memory, kind, p, n, mask, q, o) {
        Ok(asking) => Ok(asking.step()),
        Err(Refusal::Told(status)) => Ok(Step::Done(status.number())),
        Err(Refusal::OutOfMemory) => Err(AllocError),
    }
}

/// Looks a key up in a transaction: where nothing fresh is found, one guest is told to insert or to renew, and others wait.
pub fn cache_transaction_lookup(
    alloc: Global,
    http: &mut HttpTables,
    tables: &mut CacheTables,
    memory: &mut Memory,
    p: u32,
    n: u32,
    mask: u32,
    q: u32,
    o: u32,
) -> Result<CacheStep, AllocError>
    ensures { IfOk result (λ step. Goes resumed (rows.cache_transaction_lookup (both http.old tables.old) memory.old p n mask q o) step (both http.new tables.new) memory.new) }
{
    let kind = CacheKind::Transaction;
    match lookup_asked(alloc, http, tables, memory, kind, p, n, mask, q, o) {
        Ok(asking) => Ok(asking.step()),
        Err(Refusal::Told(status)) => Ok(Step::Done(status.number())),
        Err(Refusal::OutOfMemory) => Err(AllocError),
    }
}

fn busy_asked(
    alloc: Global,
    http: &HttpTables,
    tables: &CacheTables,
    memory: &Memory,
    p: u32,
    n: u32,
    mask: u32,
    q: u32,
    o: u32,
) -> Result<BusyHandle, Refusal>
    ensures { Judges (asks.busy_asked (both http.now tables.now) memory.now p n mask q o) result }
{
    let given = wanted_given(http, memory, p, n, mask, q, o)?;
    unless(!tables.busy.is_full(), Status::Limitexceeded)?;
    Ok(wanted(alloc, memory, p, n, given)?)
}

/// Puts a lookup in a transaction off: a busy handle.
pub fn cache_transaction_lookup_async(
    alloc: Global,
    http: &mut HttpTables,
    tables: &mut CacheTables,
    memory: &mut Memory,
    p: u32,
    n: u32,
    mask: u32,
    q: u32,
    o: u32,
) -> Result<Status, AllocError>
    ensures { IfOk result (λ status. Ends (rows.cache_transaction_lookup_async (both http.old tables.old) memory.old p n mask q o) status (both http.new tables.new) memory.new) }
{
    match busy_asked(alloc, http, tables, memory, p, n, mask, q, o) {
        Ok(wanted) => {
            add(&mut tables.busy, memory, wanted, o)?;
            Ok(Status::Ok)
        }
        Err(Refusal::Told(status)) => Ok(status),
        Err(Refusal::OutOfMemory) => Err(AllocError),
    }
}

fn wait_asked(
    alloc: Global,
    tables: &CacheTables,
    memory: &Memory,
    h: u32,
    o: u32,
) -> Result<Asking, Refusal>
    ensures asked { Judges (asks.wait_asked tables.now memory.now h o) result }
    ensures may { IfOk result (λ a. MayMake (call.Cache a.call)) }
    ensures badf { held tables.now.busy h ≡ None → result ≡ Err (Told Badf) }
{
    let wanted = handled(&tables.busy, h)?;
    placed(memory, o, 4)?;
    unless(!tables.handles.is_full(), Status::Limitexceeded)?;
    let key = wanted.key().copy(alloc)?;
    let headers = wanted.headers().copy(alloc)?;
    Ok(Asking {
        call: CacheCall::TxLookup { key, headers },
        under: UnderWay::Waiting { busy: h, place: o },
    })
}

/// Makes the lookup that a busy handle stands for.
pub fn cache_cache_busy_handle_wait(
    alloc: Global,
    http: &mut HttpTables,
    tables: &mut CacheTables,
    memory: &mut Memory,
    h: u32,
    o: u32,
) -> Result<CacheStep, AllocError>
    ensures row { IfOk result (λ step. Goes resumed (rows.cache_cache_busy_handle_wait (both http.old tables.old) memory.old h o) step (both http.new tables.new) memory.new) }
    ensures badf { held tables.old.busy h ≡ None → result ≡ Ok (Done 3) }
{
    match wait_asked(alloc, tables, memory, h, o) {
        Ok(asking) => Ok(asking.step()),
        Err(Refusal::Told(status)) => Ok(Step::Done(status.number())),
        Err(Refusal::OutOfMemory) => Err(AllocError),
    }
}

/// Drops a busy handle.
pub fn cache_close_busy(
    _alloc: Global,
    http: &mut HttpTables,
    tables: &mut CacheTables,
    memory: &mut Memory,
    h: u32,
) -> Result<Status, AllocError>
    ensures row { IfOk result (λ status. Ends (rows.cache_close_busy (both http.old tables.old) memory.old h) status (both http.new tables.new) memory.new) }
    ensures badf { held tables.old.busy h ≡ None → result ≡ Ok Badf }
{
    match tables.busy.get(h) {
        Some(_) => {
            tables.busy.take(h);
            Ok(Status::Ok)
        }
        None => Ok(Status::Badf),
    }
}
