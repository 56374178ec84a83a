//! The row of `fastly_purge`.
ghost use Rattle.std.specs.Prelude.{◌≡◌, IfOk};
ghost use Rattle.cache_types.specs.declared.outer.OuterCall.TheVariants as call;
ghost use Rattle.edge_abi.specs.Goes.{Goes, MayMake};
ghost use Rattle.edge_abi.specs.Refusals.{Judges};
ghost use Rattle.cache_calls.specs.Asks as asks;
ghost use Rattle.cache_calls.specs.Replies.{resumed};
ghost use Rattle.cache_calls.specs.Rows as rows;
ghost use Rattle.cache_calls.specs.Tables.{both};

use crate::keys::bytes_at;
use crate::options::has;
use crate::tables::CacheTables;
use crate::under_way::{Asking, CacheStep, UnderWay};
use cache_types::{CacheCall, Octets, is_surrogate_key};
use edge_abi::{Refusal, Status, Step, ranged, unless};
use edge_http_calls::HttpTables;
use std::alloc::{AllocError, Global};
use wasm_memory::Memory;

/// The bit of a soft purge, and the only one.
const SOFT: u32 = 1;

fn purge_asked(alloc: Global, memory: &Memory, p: u32, n: u32, mask: u32) -> Result<Asking, Refusal>
    ensures asked { Judges (asks.purge_asked memory.now p n mask) result }
    ensures may { IfOk result (λ a. MayMake (call.Cache a.call)) }
{
    ranged(memory, p, n)?;
    unless(mask <= SOFT, Status::Unsupported)?;
    unless(n != 0, Status::Inval)?;
    let key = bytes_at(memory, p, n);
    unless(is_surrogate_key(key), Status::Limitexceeded)?;
    Ok(Asking {
        call: CacheCall::Purge {
            key: Octets::of(alloc, key)?,
            soft: has(mask, SOFT),
        },
        under: UnderWay::Telling,
    })
}

/// Purges what has a surrogate key; softly, it is stale from then on. The place of the options isn't looked at.
pub fn purge_purge_surrogate_key(
    alloc: Global,
    http: &mut HttpTables,
    tables: &mut CacheTables,
    memory: &mut Memory,
    p: u32,
    n: u32,
    mask: u32,
    _options: u32,
) -> Result<CacheStep, AllocError>
    ensures { IfOk result (λ step. Goes resumed (rows.purge_purge_surrogate_key (both http.old tables.old) memory.old p n mask) step (both http.new tables.new) memory.new) }
{
    match purge_asked(alloc, memory, p, n, mask) {
        Ok(asking) => Ok(asking.step()),
        Err(Refusal::Told(status)) => Ok(Step::Done(status.number())),
        Err(Refusal::OutOfMemory) => Err(AllocError),
    }
}
