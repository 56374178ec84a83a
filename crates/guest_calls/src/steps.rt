//! The rows of each crate, among all of them.
ghost use Rattle.std.specs.Prelude.{◌≡◌, IfOk};
ghost use Rattle.edge_abi.specs.Goes.{Goes};
ghost use Rattle.body_calls.specs.Links.{IsUnlinked};
ghost use Rattle.guest_calls.specs.Rows as spec;
ghost use Rattle.guest_calls.specs.declared.call.RowCall.TheVariants as calls;
ghost use Rattle.guest_calls.specs.declared.rows.Under.TheVariants as under;
ghost use Rattle.guest_calls.specs.Unders.{resumed, step_among};

use crate::cache::{asking_row, handle_row};
use crate::call::{AskingCall, HandleCall, HttpCall, OutsideCall, PartsCall, StoreCall, WasiCall};
use crate::http::http_row;
use crate::parts::parts_row;
use crate::rows::{GuestStep, Under};
use crate::stores::{outside_row, store_row, wasi_row};
use crate::tables::GuestTables;
use crate::words::Words;
use body_calls::BodyStep;
use cache_calls::CacheStep;
use edge_abi::Step;
use edge_stores::StoreStep;
use std::alloc::{AllocError, Global};
use wasm_memory::Memory;

pub fn of_parts(step: BodyStep) -> GuestStep
    ensures step { result ≡ step_among under.Parts step }
    ensures unlinked { IsUnlinked step → IsUnlinked result }
{
    match step {
        Step::Done(number) => Step::Done(number),
        Step::Outer(call, under) => Step::Outer(call, Under::Parts(under)),
    }
}

fn of_stores(step: StoreStep) -> GuestStep
    ensures step { result ≡ step_among under.Store step }
    ensures unlinked { IsUnlinked step → IsUnlinked result }
{
    match step {
        Step::Done(number) => Step::Done(number),
        Step::Outer(call, under) => Step::Outer(call, Under::Store(under)),
    }
}

fn of_cache(step: CacheStep) -> GuestStep
    ensures step { result ≡ step_among under.Cache step }
    ensures unlinked { IsUnlinked step → IsUnlinked result }
{
    match step {
        Step::Done(number) => Step::Done(number),
        Step::Outer(call, under) => Step::Outer(call, Under::Cache(under)),
    }
}

/// Starts a row on messages.
pub fn http_step(
    alloc: Global,
    call: HttpCall,
    words: Words,
    tables: &mut GuestTables,
    memory: &mut Memory,
) -> Result<GuestStep, AllocError>
    ensures row { IfOk result (λ step. Goes resumed (spec.on_http (spec.http_row call words) tables.old memory.old) step tables.new memory.new) }
    ensures unlinked { IfOk result IsUnlinked }
{
    let status = http_row(alloc, call, words, &mut tables.http, memory)?;
    Ok(Step::Done(status.number()))
}

/// Starts a row on the parts of bodies.
pub fn parts_step(
    alloc: Global,
    call: PartsCall,
    words: Words,
    tables: &mut GuestTables,
    memory: &mut Memory,
) -> Result<GuestStep, AllocError>
    ensures row { IfOk result (λ step. Goes resumed (spec.on_http (spec.parts_row call tables.old.request words) tables.old memory.old) step tables.new memory.new) }
    ensures unlinked { IfOk result IsUnlinked }
{
    let step = parts_row(
        alloc,
        call,
        words,
        &tables.request,
        &mut tables.http,
        memory,
    )?;
    Ok(of_parts(step))
}

/// Starts a row on stores; the argument of 64 bits is `init`'s.
pub fn store_step(
    alloc: Global,
    call: StoreCall,
    version: u64,
    words: Words,
    tables: &mut GuestTables,
    memory: &mut Memory,
) -> Result<GuestStep, AllocError>
    ensures row { IfOk result (λ step. Goes resumed (spec.started (calls.Store call) version words tables.old memory.old) step tables.new memory.new) }
    ensures unlinked { IfOk result IsUnlinked }
{
    let settings = tables.settings.get();
    let status = store_row(
        alloc,
        call,
        version,
        words,
        &mut tables.stores,
        settings,
        memory,
    )?;
    Ok(Step::Done(status.number()))
}

/// Starts a row of WASI.
pub fn wasi_step(
    alloc: Global,
    call: WasiCall,
    words: Words,
    tables: &mut GuestTables,
    memory: &mut Memory,
) -> Result<GuestStep, AllocError>
    ensures row { IfOk result (λ step. Goes resumed (spec.on_stores (spec.wasi_row call words) tables.old memory.old) step tables.new memory.new) }
    ensures unlinked { IfOk result IsUnlinked }
{
    let settings = tables.settings.get();
    let number = wasi_row(alloc, call, words, &mut tables.stores, settings, memory)?;
    Ok(Step::Done(number))
}

/// Starts a row that logs or reads a clock.
pub fn outside_step(
    alloc: Global,
    call: OutsideCall,
    words: Words,
    tables: &mut GuestTables,
    memory: &mut Memory,
) -> Result<GuestStep, AllocError>
    ensures row { IfOk result (λ step. Goes resumed (spec.on_stores (spec.outside_row call words) tables.old memory.old) step tables.new memory.new) }
    ensures unlinked { IfOk result IsUnlinked }
{
    let settings = tables.settings.get();
    let step = outside_row(alloc, call, words, &mut tables.stores, settings, memory)?;
    Ok(of_stores(step))
}

/// Starts a row on cache handles.
pub fn handle_step(
    alloc: Global,
    call: HandleCall,
    words: Words,
    tables: &mut GuestTables,
    memory: &mut Memory,
) -> Result<GuestStep, AllocError>
    ensures row { IfOk result (λ step. Goes resumed (spec.on_cache (spec.handle_row call words) tables.old memory.old) step tables.new memory.new) }
    ensures unlinked { IfOk result IsUnlinked }
{
    let status = handle_row(
        alloc,
        call,
        words,
        &mut tables.http,
        &mut tables.cache,
        memory,
    )?;
    Ok(Step::Done(status.number()))
}

/// Starts a row that may ask the cache.
pub fn asking_step(
    alloc: Global,
    call: AskingCall,
    words: Words,
    tables: &mut GuestTables,
    memory: &mut Memory,
) -> Result<GuestStep, AllocError>
    ensures row { IfOk result (λ step. Goes resumed (spec.on_cache (spec.asking_row call words) tables.old memory.old) step tables.new memory.new) }
    ensures unlinked { IfOk result IsUnlinked }
{
    let step = asking_row(
        alloc,
        call,
        words,
        &mut tables.http,
        &mut tables.cache,
        memory,
    )?;
    Ok(of_cache(step))
}
