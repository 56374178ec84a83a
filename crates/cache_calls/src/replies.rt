//! What the reply to a row's call becomes: a handle or a body, and a status.
ghost use Rattle.std.specs.Prelude.{◌≡◌, IfOk};
ghost use Rattle.edge_abi.specs.Goes.{Ends};
ghost use Rattle.edge_abi.specs.Refusals.{Judges};
ghost use Rattle.cache_calls.specs.Replies as spec;
ghost use Rattle.cache_calls.specs.declared.under_way.UnderWay.TheVariants as under;
ghost use Rattle.cache_calls.specs.Tables.{both};

use crate::kinds::CacheKind;
use crate::tables::{CacheHandle, CacheTables, add};
use crate::under_way::UnderWay;
use cache_types::{Copied, Hit, OuterReply, Reply, Terms, bits_of};
use edge_abi::{Refusal, Status};
use edge_http_calls::{BodyState, HttpTables};
use std::alloc::{AllocError, Global};
use wasm_memory::Memory;

/// The entry of a lookup, by its number, and what it got.
#[derive(Drop)]
pub struct Looked {
    pub number: u64,
    pub bits: u8,
    pub hit: Option<Hit>,
}

fn copied(alloc: Global, hit: &Option<Hit>) -> Result<Option<Hit>, AllocError>
    ensures { IfOk result (λ copy. copy ≡ hit.now) }
{
    match hit {
        Some(hit) => Ok(Some(hit.copy(alloc)?)),
        None => Ok(None),
    }
}

/// What a lookup was answered.
fn looked_in(alloc: Global, reply: &OuterReply) -> Result<Looked, Refusal>
    ensures { Judges (spec.looked_in reply.now) result }
{
    match reply {
        OuterReply::Cache(stepped) => match &stepped.reply {
            Reply::Got { bits, hit } => Ok(Looked {
                number: stepped.number,
                bits: *bits,
                hit: copied(alloc, hit)?,
            }),
            Reply::Refused => Err(Refusal::Told(Status::Inval)),
            _ => Err(Refusal::Told(Status::Error)),
        },
        _ => Err(Refusal::Told(Status::Error)),
    }
}

/// The object that an insertion made.
fn made_in(reply: &OuterReply) -> Result<u64, Refusal>
    ensures { result ≡ spec.made_in reply.now }
{
    match reply {
        OuterReply::Cache(stepped) => match &stepped.reply {
            Reply::Made => Ok(stepped.number),
            Reply::Refused => Err(Refusal::Told(Status::Inval)),
            _ => Err(Refusal::Told(Status::Error)),
        },
        _ => Err(Refusal::Told(Status::Error)),
    }
}

/// Whether a call was answered with Done.
fn done_in(reply: &OuterReply) -> Result<(), Refusal>
    ensures { result ≡ spec.done_in reply.now }
{
    match reply {
        OuterReply::Cache(stepped) => match &stepped.reply {
            Reply::Done => Ok(()),
            Reply::Refused => Err(Refusal::Told(Status::Inval)),
            _ => Err(Refusal::Told(Status::Error)),
        },
        _ => Err(Refusal::Told(Status::Error)),
    }
}

/// A handle on what a lookup found.
fn handle_of(kind: CacheKind, looked: Looked) -> CacheHandle
    ensures { result ≡ spec.handle_of kind looked }
{
    CacheHandle {
        name: looked.number,
        kind,
        bits: looked.bits,
        hit: looked.hit,
    }
}

/// The handle on a new object, as if a lookup had found it.
fn streamed_back(object: u64, terms: Terms, length: Option<u64>) -> CacheHandle
    ensures { result ≡ spec.streamed_back object terms length }
{
    let bits = bits_of(&terms, terms.initial_age, false);
    let hit = Hit {
        object,
        age: terms.initial_age,
        max_age: terms.max_age,
        stale: terms.stale,
        length,
        metadata: terms.metadata,
    };
    CacheHandle {
        name: object,
        kind: CacheKind::Streamed,
        bits,
        hit: Some(hit),
    }
}

fn after_lookup(
    alloc: Global,
    http: &HttpTables,
    tables: &mut CacheTables,
    memory: &mut Memory,
    kind: CacheKind,
    place: u32,
    reply: &OuterReply,
) -> Result<Status, AllocError>
    ensures { IfOk result (λ status. Ends (spec.resumed (under.Looking kind place) (both http.now tables.old) memory.old reply.now) status (both http.now tables.new) memory.new) }
{
    match looked_in(alloc, reply) {
        Ok(looked) => {
            add(&mut tables.handles, memory, handle_of(kind, looked), place)?;
            Ok(Status::Ok)
        }
        Err(Refusal::Told(status)) => Ok(status),
        Err(Refusal::OutOfMemory) => Err(AllocError),
    }
}

fn after_wait(
    alloc: Global,
    http: &HttpTables,
    tables: &mut CacheTables,
    memory: &mut Memory,
    busy: u32,
    place: u32,
    reply: &OuterReply,
) -> Result<Status, AllocError>
    ensures { IfOk result (λ status. Ends (spec.resumed (under.Waiting busy place) (both http.now tables.old) memory.old reply.now) status (both http.now tables.new) memory.new) }
{
    match looked_in(alloc, reply) {
        Ok(looked) => {
            tables.busy.take(busy);
            let handle = handle_of(CacheKind::Transaction, looked);
            add(&mut tables.handles, memory, handle, place)?;
            Ok(Status::Ok)
        }
        Err(Refusal::Told(status)) => Ok(status),
        Err(Refusal::OutOfMemory) => Err(AllocError),
    }
}

fn after_insertion(
    http: &mut HttpTables,
    tables: &CacheTables,
    memory: &mut Memory,
    place: u32,
    reply: &OuterReply,
) -> Result<Status, AllocError>
    ensures { IfOk result (λ status. Ends (spec.resumed (under.Inserting place) (both http.old tables.now) memory.old reply.now) status (both http.new tables.now) memory.new) }
{
    match made_in(reply) {
        Ok(object) => {
            add(
                &mut http.bodies,
                memory,
                BodyState::Filling { object },
                place,
            )?;
            Ok(Status::Ok)
        }
        Err(Refusal::Told(status)) => Ok(status),
        Err(Refusal::OutOfMemory) => Err(AllocError),
    }
}

fn after_insertion_back(
    http: &mut HttpTables,
    tables: &mut CacheTables,
    memory: &mut Memory,
    place: u32,
    back: u32,
    terms: Terms,
    length: Option<u64>,
    reply: &OuterReply,
) -> Result<Status, AllocError>
    ensures { IfOk result (λ status. Ends (spec.resumed (under.StreamingBack place back terms length) (both http.old tables.old) memory.old reply.now) status (both http.new tables.new) memory.new) }
{
    match made_in(reply) {
        Ok(object) => {
            let filling = BodyState::Filling { object };
            add(&mut http.bodies, memory, filling, place)?;
            let handle = streamed_back(object, terms, length);
            add(&mut tables.handles, memory, handle, back)?;
            Ok(Status::Ok)
        }
        Err(Refusal::Told(status)) => Ok(status),
        Err(Refusal::OutOfMemory) => Err(AllocError),
    }
}

fn after_call(
    http: &HttpTables,
    tables: &CacheTables,
    memory: &Memory,
    reply: &OuterReply,
) -> Result<Status, AllocError>
    ensures { IfOk result (λ status. Ends (spec.resumed under.Telling (both http.now tables.now) memory.now reply.now) status (both http.now tables.now) memory.now) }
{
    match done_in(reply) {
        Ok(()) => Ok(Status::Ok),
        Err(Refusal::Told(status)) => Ok(status),
        Err(Refusal::OutOfMemory) => Err(AllocError),
    }
}

fn after_close(
    http: &HttpTables,
    tables: &mut CacheTables,
    memory: &Memory,
    handle: u32,
    reply: &OuterReply,
) -> Result<Status, AllocError>
    ensures { IfOk result (λ status. Ends (spec.resumed (under.Closing handle) (both http.now tables.old) memory.now reply.now) status (both http.now tables.new) memory.now) }
{
    match done_in(reply) {
        Ok(()) => {
            tables.handles.take(handle);
            Ok(Status::Ok)
        }
        Err(Refusal::Told(status)) => Ok(status),
        Err(Refusal::OutOfMemory) => Err(AllocError),
    }
}

/// Goes on with a row that waited for this reply: with it the row is at its end.
pub fn cache_reply(
    alloc: Global,
    http: &mut HttpTables,
    tables: &mut CacheTables,
    memory: &mut Memory,
    under: UnderWay,
    reply: &OuterReply,
) -> Result<Status, AllocError>
    ensures { IfOk result (λ status. Ends (spec.resumed under (both http.old tables.old) memory.old reply.now) status (both http.new tables.new) memory.new) }
{
    match under {
        UnderWay::Looking { kind, place } => after_lookup(
            alloc, http, tables, memory, kind, place, reply,
        ),
        UnderWay::Waiting { busy, place } => after_wait(
            alloc, http, tables, memory, busy, place, reply,
        ),
        UnderWay::Inserting { place } => after_insertion(http, tables, memory, place, reply),
        UnderWay::StreamingBack {
            place,
            back,
            terms,
            length,
        } => after_insertion_back(http, tables, memory, place, back, terms, length, reply),
        UnderWay::Telling => after_call(http, tables, memory, reply),
        UnderWay::Closing { handle } => after_close(http, tables, memory, handle, reply),
    }
}
