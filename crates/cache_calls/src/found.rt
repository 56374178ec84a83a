//! The rows that tell what a lookup found.
ghost use Rattle.std.specs.Prelude.{◌≡◌, ◌∷◌, [], Ok, Err, None, IfOk, IfErr};
ghost use Rattle.edge_abi.specs.declared.status.Status.TheVariants.{Badf};
ghost use Rattle.edge_abi.specs.declared.status.Refusal.TheVariants.{Told};
ghost use Rattle.edge_abi.specs.Goes.{Ends};
ghost use Rattle.edge_abi.specs.Tables.{held};
ghost use Rattle.edge_http_calls.specs.declared.tables.BodyState.TheVariants.{Held};
ghost use Rattle.cache_calls.specs.Asks as asks;
ghost use Rattle.cache_calls.specs.Rows as rows;
ghost use Rattle.cache_calls.specs.Tables.{both};

use crate::tables::{CacheHandle, CacheTables, add};
use cache_types::Hit;
use edge_abi::{Refusal, Status, placed, put_number, put_value, ranged, unless};
use edge_body::{Body, Part};
use edge_http_calls::{BodyState, HttpTables, handled};
use std::alloc::{AllocError, Global};
use wasm_memory::Memory;

fn state_asked(tables: &CacheTables, memory: &Memory, h: u32, o: u32) -> Result<u8, Refusal>
    ensures { result ≡ asks.state_asked tables.now memory.now h o }
{
    let handle = handled(&tables.handles, h)?;
    placed(memory, o, 4)?;
    Ok(handle.bits)
}

/// Tells the state of a lookup: 1 found, 2 usable, 4 stale, 8 must insert or update.
pub fn cache_get_state(
    _alloc: Global,
    http: &mut HttpTables,
    tables: &mut CacheTables,
    memory: &mut Memory,
    h: u32,
    o: u32,
) -> Result<Status, AllocError>
    ensures row { IfOk result (λ status. Ends (rows.cache_get_state (both http.old tables.old) memory.old h o) status (both http.new tables.new) memory.new) }
    ensures badf { held tables.old.handles h ≡ None → result ≡ Ok Badf }
{
    match state_asked(tables, memory, h, o) {
        Ok(bits) => {
            put_number(memory, o, 4, u64::from(bits));
            Ok(Status::Ok)
        }
        Err(Refusal::Told(status)) => Ok(status),
        Err(Refusal::OutOfMemory) => Err(AllocError),
    }
}

/// What a handle found.
fn hit_of(handle: &CacheHandle) -> Result<&Hit, Refusal>
    ensures ok { IfOk result (λ hit. asks.hit_of handle.now ≡ Ok hit.now) }
    ensures err { IfErr result (λ refusal. asks.hit_of handle.now ≡ Err refusal) }
{
    match &handle.hit {
        Some(hit) => Ok(hit),
        None => Err(Refusal::Told(Status::None)),
    }
}

fn metadata_asked<'a>(
    tables: &'a CacheTables,
    memory: &Memory,
    h: u32,
    b: u32,
    room: u32,
    count: u32,
) -> Result<&'a Hit, Refusal>
    ensures ok { IfOk result (λ hit. asks.metadata_asked tables.now memory.now h b room count ≡ Ok hit.now) }
    ensures err { IfErr result (λ refusal. asks.metadata_asked tables.now memory.now h b room count ≡ Err refusal) }
{
    let handle = handled(&tables.handles, h)?;
    ranged(memory, b, room)?;
    placed(memory, count, 4)?;
    hit_of(handle)
}

/// Tells the metadata of what was found.
pub fn cache_get_user_metadata(
    _alloc: Global,
    http: &mut HttpTables,
    tables: &mut CacheTables,
    memory: &mut Memory,
    h: u32,
    b: u32,
    room: u32,
    count: u32,
) -> Result<Status, AllocError>
    ensures row { IfOk result (λ status. Ends (rows.cache_get_user_metadata (both http.old tables.old) memory.old h b room count) status (both http.new tables.new) memory.new) }
    ensures badf { held tables.old.handles h ≡ None → result ≡ Ok Badf }
{
    match metadata_asked(tables, memory, h, b, room, count) {
        Ok(hit) => Ok(put_value(memory, b, room, count, hit.metadata.bytes())),
        Err(Refusal::Told(status)) => Ok(status),
        Err(Refusal::OutOfMemory) => Err(AllocError),
    }
}

/// What was found, and a place for a number of eight bytes.
fn hit_asked<'a>(
    tables: &'a CacheTables,
    memory: &Memory,
    h: u32,
    o: u32,
) -> Result<&'a Hit, Refusal>
    ensures ok { IfOk result (λ hit. asks.hit_asked tables.now memory.now h o ≡ Ok hit.now) }
    ensures err { IfErr result (λ refusal. asks.hit_asked tables.now memory.now h o ≡ Err refusal) }
{
    let handle = handled(&tables.handles, h)?;
    placed(memory, o, 8)?;
    hit_of(handle)
}

fn length_asked(tables: &CacheTables, memory: &Memory, h: u32, o: u32) -> Result<u64, Refusal>
    ensures { result ≡ asks.length_asked tables.now memory.now h o }
{
    let hit = hit_asked(tables, memory, h, o)?;
    match hit.length {
        Some(length) => Ok(length),
        None => Err(Refusal::Told(Status::None)),
    }
}

/// Tells the length of what was found, in bytes, where it was known at the lookup.
pub fn cache_get_length(
    _alloc: Global,
    http: &mut HttpTables,
    tables: &mut CacheTables,
    memory: &mut Memory,
    h: u32,
    o: u32,
) -> Result<Status, AllocError>
    ensures row { IfOk result (λ status. Ends (rows.cache_get_length (both http.old tables.old) memory.old h o) status (both http.new tables.new) memory.new) }
    ensures badf { held tables.old.handles h ≡ None → result ≡ Ok Badf }
{
    match length_asked(tables, memory, h, o) {
        Ok(length) => {
            put_number(memory, o, 8, length);
            Ok(Status::Ok)
        }
        Err(Refusal::Told(status)) => Ok(status),
        Err(Refusal::OutOfMemory) => Err(AllocError),
    }
}

/// Tells how long what was found is fresh, in nanoseconds.
pub fn cache_get_max_age_ns(
    _alloc: Global,
    http: &mut HttpTables,
    tables: &mut CacheTables,
    memory: &mut Memory,
    h: u32,
    o: u32,
) -> Result<Status, AllocError>
    ensures row { IfOk result (λ status. Ends (rows.cache_get_max_age_ns (both http.old tables.old) memory.old h o) status (both http.new tables.new) memory.new) }
    ensures badf { held tables.old.handles h ≡ None → result ≡ Ok Badf }
{
    match hit_asked(tables, memory, h, o) {
        Ok(hit) => {
            put_number(memory, o, 8, hit.max_age);
            Ok(Status::Ok)
        }
        Err(Refusal::Told(status)) => Ok(status),
        Err(Refusal::OutOfMemory) => Err(AllocError),
    }
}

/// Tells how long what was found stays usable behind that, in nanoseconds.
pub fn cache_get_stale_while_revalidate_ns(
    _alloc: Global,
    http: &mut HttpTables,
    tables: &mut CacheTables,
    memory: &mut Memory,
    h: u32,
    o: u32,
) -> Result<Status, AllocError>
    ensures row { IfOk result (λ status. Ends (rows.cache_get_stale_while_revalidate_ns (both http.old tables.old) memory.old h o) status (both http.new tables.new) memory.new) }
    ensures badf { held tables.old.handles h ≡ None → result ≡ Ok Badf }
{
    match hit_asked(tables, memory, h, o) {
        Ok(hit) => {
            put_number(memory, o, 8, hit.stale);
            Ok(Status::Ok)
        }
        Err(Refusal::Told(status)) => Ok(status),
        Err(Refusal::OutOfMemory) => Err(AllocError),
    }
}

/// Tells the age of what was found, in nanoseconds.
pub fn cache_get_age_ns(
    _alloc: Global,
    http: &mut HttpTables,
    tables: &mut CacheTables,
    memory: &mut Memory,
    h: u32,
    o: u32,
) -> Result<Status, AllocError>
    ensures row { IfOk result (λ status. Ends (rows.cache_get_age_ns (both http.old tables.old) memory.old h o) status (both http.new tables.new) memory.new) }
    ensures badf { held tables.old.handles h ≡ None → result ≡ Ok Badf }
{
    match hit_asked(tables, memory, h, o) {
        Ok(hit) => {
            put_number(memory, o, 8, hit.age);
            Ok(Status::Ok)
        }
        Err(Refusal::Told(status)) => Ok(status),
        Err(Refusal::OutOfMemory) => Err(AllocError),
    }
}

fn body_asked(
    http: &HttpTables,
    tables: &CacheTables,
    memory: &Memory,
    h: u32,
    mask: u32,
    o: u32,
) -> Result<Part, Refusal>
    ensures { result ≡ rows.body_asked (both http.now tables.now) memory.now h mask o }
{
    let handle = handled(&tables.handles, h)?;
    placed(memory, o, 4)?;
    unless(mask == 0, Status::Unsupported)?;
    let hit = hit_of(handle)?;
    unless(!http.bodies.is_full(), Status::Limitexceeded)?;
    Ok(Part::Rest {
        hit: handle.name,
        place: 0,
        length: hit.length,
    })
}

/// A held body of one part.
fn body_of(alloc: Global, part: Part) -> Result<BodyState, AllocError>
    ensures { IfOk result (λ state. state ≡ Held (part ∷ [])) }
{
    let mut body = Body::new(alloc);
    body.push_back(part)?;
    Ok(BodyState::Held(body))
}

/// Gives the body of what was found: a held one. The place of the options isn't looked at.
pub fn cache_get_body(
    alloc: Global,
    http: &mut HttpTables,
    tables: &mut CacheTables,
    memory: &mut Memory,
    h: u32,
    mask: u32,
    _options: u32,
    o: u32,
) -> Result<Status, AllocError>
    ensures row { IfOk result (λ status. Ends (rows.cache_get_body (both http.old tables.old) memory.old h mask o) status (both http.new tables.new) memory.new) }
    ensures badf { held tables.old.handles h ≡ None → result ≡ Ok Badf }
{
    match body_asked(http, tables, memory, h, mask, o) {
        Ok(part) => {
            let body = body_of(alloc, part)?;
            add(&mut http.bodies, memory, body, o)?;
            Ok(Status::Ok)
        }
        Err(Refusal::Told(status)) => Ok(status),
        Err(Refusal::OutOfMemory) => Err(AllocError),
    }
}
