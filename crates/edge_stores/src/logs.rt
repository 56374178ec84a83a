//! The rows of `fastly_log`.
ghost use Rattle.std.specs.Prelude.{◌≡◌, Ok, Err, None, IfOk, IfErr, OnOk, IsTrue, min};
ghost use Rattle.edge_abi.specs.declared.asked.Step.TheVariants.{Done};
ghost use Rattle.edge_abi.specs.Goes.{Ends, Goes};
ghost use Rattle.edge_abi.specs.Memory as memories;
ghost use Rattle.edge_abi.specs.Memory.{has_range};
ghost use Rattle.edge_abi.specs.Refusals.{Judges};
ghost use Rattle.edge_abi.specs.Tables.{held};
ghost use Rattle.edge_stores.specs.Logs as rows;
ghost use Rattle.edge_stores.specs.UnderWays.{resumed};

use crate::named::{add_name, handled, octets_at};
use crate::tables::StoreTables;
use crate::under_way::{StoreStep, UnderWay};
use cache_types::{Copied, Octets, OuterCall};
use edge_abi::{Refusal, Status, Step, placed, ranged, unless};
use fastly_toml::Settings;
use std::alloc::{AllocError, Global};
use wasm_memory::Memory;

/// The most bytes of an endpoint's name.
const MOST_NAME: u32 = 256;

/// The most bytes of a line.
const MOST_LINE: u32 = 65_536;

fn endpoint_asked(
    alloc: Global,
    tables: &StoreTables,
    memory: &Memory,
    p: u32,
    n: u32,
    o: u32,
) -> Result<Octets, Refusal>
    ensures { Judges (rows.endpoint_asked tables.now memory.now p n o) result }
{
    ranged(memory, p, n)?;
    placed(memory, o, 4)?;
    unless(1 <= n && n <= MOST_NAME, Status::Inval)?;
    unless(!tables.endpoints.is_full(), Status::Limitexceeded)?;
    Ok(octets_at(alloc, memory, p, n)?)
}

/// Gives the log endpoint with a name.
pub fn log_endpoint_get(
    alloc: Global,
    tables: &mut StoreTables,
    _settings: &Settings,
    memory: &mut Memory,
    p: u32,
    n: u32,
    o: u32,
) -> Result<Status, AllocError>
    ensures { IfOk result (λ status. Ends (rows.log_endpoint_get tables.old memory.old p n o) status tables.new memory.new) }
{
    match endpoint_asked(alloc, tables, memory, p, n, o) {
        Ok(name) => add_name(&mut tables.endpoints, memory, name, o),
        Err(Refusal::Told(status)) => Ok(status),
        Err(Refusal::OutOfMemory) => Err(AllocError),
    }
}

fn line_asked<'a>(
    tables: &'a StoreTables,
    memory: &Memory,
    h: u32,
    p: u32,
    n: u32,
    o: u32,
) -> Result<&'a Octets, Refusal>
    ensures ok { IfOk result (λ name. rows.line_asked tables.now memory.now h p n o ≡ Ok name.now) }
    ensures range { OnOk result (IsTrue (has_range memory.now p n)) }
    ensures err { IfErr result (λ refusal. rows.line_asked tables.now memory.now h p n o ≡ Err refusal) }
{
    let name = handled(&tables.endpoints, h)?;
    ranged(memory, p, n)?;
    placed(memory, o, 4)?;
    Ok(name)
}

/// The first bytes of a range, as many as a line has at most.
fn line_at(alloc: Global, memory: &Memory, p: u32, n: u32) -> Result<Octets, AllocError>
    requires { IsTrue (has_range memory.now p n) }
    ensures { IfOk result (λ line. line ≡ memories.octets_at memory.now p (min n 65536)) }
{
    octets_at(alloc, memory, p, n.min(MOST_LINE))
}

/// Writes a line to an endpoint.
pub fn log_write(
    alloc: Global,
    tables: &mut StoreTables,
    _settings: &Settings,
    memory: &mut Memory,
    h: u32,
    p: u32,
    n: u32,
    o: u32,
) -> Result<StoreStep, AllocError>
    ensures row { IfOk result (λ step. Goes resumed (rows.log_write tables.old memory.old h p n o) step tables.new memory.new) }
    ensures badf { held tables.old.endpoints h ≡ None → result ≡ Ok (Done 3) }
{
    match line_asked(tables, memory, h, p, n, o) {
        Ok(name) => {
            let endpoint = name.copy(alloc)?;
            let line = line_at(alloc, memory, p, n)?;
            let under = UnderWay::Logging {
                taken: n.min(MOST_LINE),
                place: o,
            };
            Ok(Step::Outer(OuterCall::Log { endpoint, line }, under))
        }
        Err(Refusal::Told(status)) => Ok(Step::Done(status.number())),
        Err(Refusal::OutOfMemory) => Err(AllocError),
    }
}
