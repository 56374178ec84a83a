//! The rows of `wasi_snapshot_preview1`, but for `fd_write` and `random_get`.
ghost use Rattle.std.specs.Prelude.{◌≡◌, Ok, IfOk};
ghost use Rattle.edge_abi.specs.declared.asked.Asked.TheVariants.{Exit};
ghost use Rattle.edge_abi.specs.declared.asked.Step.TheVariants.{Done};
ghost use Rattle.edge_abi.specs.Goes.{Goes};
ghost use Rattle.edge_stores.specs.Numbers.{Leaves};
ghost use Rattle.edge_stores.specs.UnderWays.{resumed};
ghost use Rattle.edge_stores.specs.Wasi as rows;

use crate::numbers::{SUCCESS, errno_of};
use crate::tables::StoreTables;
use crate::under_way::{StoreStep, UnderWay};
use cache_types::OuterCall;
use edge_abi::{Asked, Refusal, Status, Step, placed, put_number, ranged, unless};
use fastly_toml::Settings;
use std::alloc::{AllocError, Global};
use wasm_memory::Memory;

/// Ends the guest with a code.
pub fn wasi_proc_exit(
    _alloc: Global,
    tables: &mut StoreTables,
    _settings: &Settings,
    memory: &mut Memory,
    code: u32,
) -> Result<Asked, AllocError>
    ensures row { Leaves (rows.wasi_proc_exit tables.old memory.old code) code tables.new memory.new }
    ensures code { result ≡ Ok (Exit code) }
{
    Ok(Asked::Exit(code))
}

fn clock_asked(memory: &Memory, id: u32, o: u32) -> Result<(), Refusal>
    ensures { result ≡ rows.clock_asked memory.now id o }
{
    placed(memory, o, 8)?;
    unless(id == 0 || id == 1, Status::Inval)
}

/// Tells what a clock says, in nanoseconds. Clocks 0 and 1 are the same.
pub fn wasi_clock_time_get(
    _alloc: Global,
    tables: &mut StoreTables,
    _settings: &Settings,
    memory: &mut Memory,
    id: u32,
    _precision: u64,
    o: u32,
) -> Result<StoreStep, AllocError>
    ensures { IfOk result (λ step. Goes resumed (rows.wasi_clock_time_get tables.old memory.old id o) step tables.new memory.new) }
{
    match clock_asked(memory, id, o) {
        Ok(()) => Ok(Step::Outer(OuterCall::Now { clock: id }, UnderWay::Timing { place: o })),
        Err(Refusal::Told(status)) => Ok(Step::Done(errno_of(status))),
        Err(Refusal::OutOfMemory) => Err(AllocError),
    }
}

fn sizes_asked(memory: &Memory, o: u32, p: u32) -> Result<(), Refusal>
    ensures { result ≡ rows.sizes_asked memory.now o p }
{
    placed(memory, o, 4)?;
    placed(memory, p, 4)
}

/// No items, and no bytes.
fn sizes_get(tables: &StoreTables, memory: &mut Memory, o: u32, p: u32) -> Result<u32, AllocError>
    ensures { IfOk result (λ number. Goes resumed (rows.wasi_sizes_get tables.now memory.old o p) (Done number) tables.now memory.new) }
{
    match sizes_asked(memory, o, p) {
        Ok(()) => {
            put_number(memory, o, 4, 0);
            put_number(memory, p, 4, 0);
            Ok(SUCCESS)
        }
        Err(Refusal::Told(status)) => Ok(errno_of(status)),
        Err(Refusal::OutOfMemory) => Err(AllocError),
    }
}

/// The environment has no variables.
pub fn wasi_environ_sizes_get(
    _alloc: Global,
    tables: &mut StoreTables,
    _settings: &Settings,
    memory: &mut Memory,
    o: u32,
    p: u32,
) -> Result<u32, AllocError>
    ensures { IfOk result (λ number. Goes resumed (rows.wasi_sizes_get tables.old memory.old o p) (Done number) tables.new memory.new) }
{
    sizes_get(tables, memory, o, p)
}

/// There are no arguments.
pub fn wasi_args_sizes_get(
    _alloc: Global,
    tables: &mut StoreTables,
    _settings: &Settings,
    memory: &mut Memory,
    o: u32,
    p: u32,
) -> Result<u32, AllocError>
    ensures { IfOk result (λ number. Goes resumed (rows.wasi_sizes_get tables.old memory.old o p) (Done number) tables.new memory.new) }
{
    sizes_get(tables, memory, o, p)
}

fn lists_asked(memory: &Memory, p: u32, q: u32) -> Result<(), Refusal>
    ensures { result ≡ rows.lists_asked memory.now p q }
{
    ranged(memory, p, 0)?;
    ranged(memory, q, 0)
}

/// Nothing is written.
fn lists_get(tables: &StoreTables, memory: &Memory, p: u32, q: u32) -> Result<u32, AllocError>
    ensures { IfOk result (λ number. Goes resumed (rows.wasi_lists_get tables.now memory.now p q) (Done number) tables.now memory.now) }
{
    match lists_asked(memory, p, q) {
        Ok(()) => Ok(SUCCESS),
        Err(Refusal::Told(status)) => Ok(errno_of(status)),
        Err(Refusal::OutOfMemory) => Err(AllocError),
    }
}

/// The variables of the environment.
pub fn wasi_environ_get(
    _alloc: Global,
    tables: &mut StoreTables,
    _settings: &Settings,
    memory: &mut Memory,
    p: u32,
    q: u32,
) -> Result<u32, AllocError>
    ensures { IfOk result (λ number. Goes resumed (rows.wasi_lists_get tables.old memory.old p q) (Done number) tables.new memory.new) }
{
    lists_get(tables, memory, p, q)
}

/// The arguments.
pub fn wasi_args_get(
    _alloc: Global,
    tables: &mut StoreTables,
    _settings: &Settings,
    memory: &mut Memory,
    p: u32,
    q: u32,
) -> Result<u32, AllocError>
    ensures { IfOk result (λ number. Goes resumed (rows.wasi_lists_get tables.old memory.old p q) (Done number) tables.new memory.new) }
{
    lists_get(tables, memory, p, q)
}
