//! How a row of each crate goes on behind the reply to its outer call.
ghost use Rattle.std.specs.Prelude.{◌≡◌, IfOk};
ghost use Rattle.edge_abi.specs.Goes.{Goes};
ghost use Rattle.body_calls.specs.Links.{IsUnlinked};
ghost use Rattle.guest_calls.specs.declared.rows.Under.TheVariants as unders;
ghost use Rattle.guest_calls.specs.Unders.{resumed};

use crate::rows::GuestStep;
use crate::steps::of_parts;
use crate::tables::GuestTables;
use body_calls::{UnderWay as PartsUnder, resumed as parts_reply};
use cache_calls::{UnderWay as CacheUnder, cache_reply};
use cache_types::OuterReply;
use edge_abi::Step;
use edge_stores::{UnderWay as StoreUnder, store_reply};
use std::alloc::{AllocError, Global};
use wasm_memory::Memory;

/// Goes on with a row on the parts of bodies.
pub fn parts_heard(
    alloc: Global,
    tables: &mut GuestTables,
    memory: &mut Memory,
    under: PartsUnder,
    reply: &OuterReply,
) -> Result<GuestStep, AllocError>
    ensures row { IfOk result (λ step. Goes resumed (resumed (unders.Parts under) tables.old memory.old reply.now) step tables.new memory.new) }
    ensures unlinked { IfOk result IsUnlinked }
{
    let step = parts_reply(alloc, &mut tables.http, memory, under, reply)?;
    Ok(of_parts(step))
}

/// Goes on with a row that logs or reads a clock.
pub fn store_heard(
    tables: &mut GuestTables,
    memory: &mut Memory,
    under: StoreUnder,
    reply: &OuterReply,
) -> GuestStep
    ensures row { Goes resumed (resumed (unders.Store under) tables.old memory.old reply.now) result tables.new memory.new }
    ensures unlinked { IsUnlinked result }
{
    let number = store_reply(&mut tables.stores, memory, under, reply);
    Step::Done(number)
}

/// Goes on with a row that asked the cache.
pub fn cache_heard(
    alloc: Global,
    tables: &mut GuestTables,
    memory: &mut Memory,
    under: CacheUnder,
    reply: &OuterReply,
) -> Result<GuestStep, AllocError>
    ensures row { IfOk result (λ step. Goes resumed (resumed (unders.Cache under) tables.old memory.old reply.now) step tables.new memory.new) }
    ensures unlinked { IfOk result IsUnlinked }
{
    let status = cache_reply(
        alloc,
        &mut tables.http,
        &mut tables.cache,
        memory,
        under,
        reply,
    )?;
    Ok(Step::Done(status.number()))
}
