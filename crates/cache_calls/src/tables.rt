//! What a guest has of the cache.
ghost use Rattle.std.specs.Prelude.{◌≡◌, ◌+◌, ◌∷◌, ◌++◌, [], length, Some, IsTrue, OnOk};
ghost use Rattle.cache_types.specs.Limits.{is_key, is_headers};
ghost use Rattle.edge_abi.specs.Memory.{number_put};

use crate::kinds::CacheKind;
use cache_types::{Fields, Hit, Octets};
use edge_abi::{Table, put_number};
use std::alloc::{AllocError, Global};
use std::marker::Model;
use wasm_memory::Memory;

/// What a lookup told, as it stood then. `name` is the number of its entry, or of the insertion's for a streamed-back handle;
/// the bits are 1 found, 2 usable, 4 stale, 8 must insert or update.
#[derive(Drop)]
pub struct CacheHandle {
    pub name: u64,
    pub kind: CacheKind,
    pub bits: u8,
    pub hit: Option<Hit>,
}

/// A transactional lookup that wasn't made yet: a key and headers within the cache's limits.
#[derive(Drop)]
pub struct BusyHandle {
    key: Octets,
    headers: Fields,
}

impl Model for BusyHandle {
    ghost use Rattle.std.specs.Prelude.{IsTrue};
    ghost use Rattle.cache_types.specs.Limits.{is_key, is_headers};
    ghost use Rattle.cache_calls.specs.Wanted.{Wanted};

    ghost Value = { Wanted };

    ghost view = { λ b. record { key = b.key; headers = b.headers } };

    ghost invariant = { λ b. IsTrue (is_key b.key) × IsTrue (is_headers b.headers) };
}

impl BusyHandle {
    /// The lookup of a key with these headers.
    pub fn new(key: Octets, headers: Fields) -> BusyHandle
        requires key { IsTrue (is_key key) }
        requires headers { IsTrue (is_headers headers) }
        ensures { result ≡ record { key = key; headers = headers } }
    {
        BusyHandle { key, headers }
    }

    pub fn key(&self) -> &Octets
        ensures value { result.now ≡ self.now.key }
        ensures kept { IsTrue (is_key result.now) }
    {
        &self.key
    }

    pub fn headers(&self) -> &Fields
        ensures value { result.now ≡ self.now.headers }
        ensures kept { IsTrue (is_headers result.now) }
    {
        &self.headers
    }

    /// Key and headers.
    pub fn into_parts(self) -> (Octets, Fields)
        ensures key { result.0 ≡ self.key }
        ensures headers { result.1 ≡ self.headers }
        ensures key_kept { IsTrue (is_key result.0) }
        ensures headers_kept { IsTrue (is_headers result.1) }
    {
        let BusyHandle { key, headers } = self;
        (key, headers)
    }
}

/// The cache's handles of one guest.
#[derive(Drop)]
pub struct CacheTables {
    pub handles: Table<CacheHandle>,
    pub busy: Table<BusyHandle>,
}

impl CacheTables {
    /// What a guest has at its start.
    pub fn new(alloc: Global) -> CacheTables
        ensures { result ≡ record { handles = []; busy = [] } }
    {
        CacheTables {
            handles: Table::new(alloc),
            busy: Table::new(alloc),
        }
    }
}

/// One handle more, whose number is told at a place.
pub fn add<T: Drop>(
    table: &mut Table<T>,
    memory: &mut Memory,
    value: T,
    place: u32,
) -> Result<(), AllocError>
    ensures added { OnOk result (table.new ≡ table.old ++ Some value ∷ []) }
    ensures told { OnOk result (memory.new ≡ number_put memory.old place 4 (length table.old + 1)) }
{
    match table.add(value) {
        Ok(number) => {
            put_number(memory, place, 4, u64::from(number));
            Ok(())
        }
        Err(_) => Err(AllocError),
    }
}
