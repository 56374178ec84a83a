//! The rows of `fastly_abi`, `fastly_dictionary` and `fastly_config_store`.
ghost use Rattle.std.specs.Prelude.{◌≡◌, Ok, None, IfOk};
ghost use Rattle.edge_abi.specs.declared.status.Status.TheVariants.{Badf};
ghost use Rattle.edge_abi.specs.Goes.{Ends};
ghost use Rattle.edge_abi.specs.Tables.{held};
ghost use Rattle.edge_stores.specs.Stores as rows;

use crate::named::{add_name, open_asked, text_asked};
use crate::tables::StoreTables;
use edge_abi::{Refusal, Status, put_value};
use fastly_toml::Settings;
use std::alloc::{AllocError, Global};
use wasm_memory::Memory;

/// Says which version of the interface the guest was made for: 1.
pub fn abi_init(
    _alloc: Global,
    tables: &mut StoreTables,
    _settings: &Settings,
    memory: &mut Memory,
    version: u64,
) -> Result<Status, AllocError>
    ensures { IfOk result (λ status. Ends (rows.abi_init tables.old memory.old version) status tables.new memory.new) }
{
    if version == 1 {
        Ok(Status::Ok)
    } else {
        Ok(Status::Unsupported)
    }
}

/// Opens the dictionary with a name.
pub fn dictionary_open(
    alloc: Global,
    tables: &mut StoreTables,
    settings: &Settings,
    memory: &mut Memory,
    p: u32,
    n: u32,
    o: u32,
) -> Result<Status, AllocError>
    ensures { IfOk result (λ status. Ends (rows.dictionary_open tables.old settings.now memory.old p n o) status tables.new memory.new) }
{
    match open_asked(
        alloc,
        &settings.dictionaries,
        &tables.dictionaries,
        memory,
        p,
        n,
        o,
    ) {
        Ok(name) => add_name(&mut tables.dictionaries, memory, name, o),
        Err(Refusal::Told(status)) => Ok(status),
        Err(Refusal::OutOfMemory) => Err(AllocError),
    }
}

/// Tells the text of a key.
pub fn dictionary_get(
    alloc: Global,
    tables: &mut StoreTables,
    settings: &Settings,
    memory: &mut Memory,
    h: u32,
    p: u32,
    n: u32,
    b: u32,
    room: u32,
    count: u32,
) -> Result<Status, AllocError>
    ensures row { IfOk result (λ status. Ends (rows.dictionary_get tables.old settings.now memory.old h p n b room count) status tables.new memory.new) }
    ensures badf { held tables.old.dictionaries h ≡ None → result ≡ Ok Badf }
{
    match text_asked(
        alloc,
        &settings.dictionaries,
        &tables.dictionaries,
        memory,
        h,
        p,
        n,
        b,
        room,
        count,
    ) {
        Ok(text) => Ok(put_value(memory, b, room, count, text.bytes())),
        Err(Refusal::Told(status)) => Ok(status),
        Err(Refusal::OutOfMemory) => Err(AllocError),
    }
}

/// Opens the config store with a name.
pub fn config_store_open(
    alloc: Global,
    tables: &mut StoreTables,
    settings: &Settings,
    memory: &mut Memory,
    p: u32,
    n: u32,
    o: u32,
) -> Result<Status, AllocError>
    ensures { IfOk result (λ status. Ends (rows.config_store_open tables.old settings.now memory.old p n o) status tables.new memory.new) }
{
    match open_asked(alloc, &settings.configs, &tables.configs, memory, p, n, o) {
        Ok(name) => add_name(&mut tables.configs, memory, name, o),
        Err(Refusal::Told(status)) => Ok(status),
        Err(Refusal::OutOfMemory) => Err(AllocError),
    }
}

/// Tells the text of a key.
pub fn config_store_get(
    alloc: Global,
    tables: &mut StoreTables,
    settings: &Settings,
    memory: &mut Memory,
    h: u32,
    p: u32,
    n: u32,
    b: u32,
    room: u32,
    count: u32,
) -> Result<Status, AllocError>
    ensures row { IfOk result (λ status. Ends (rows.config_store_get tables.old settings.now memory.old h p n b room count) status tables.new memory.new) }
    ensures badf { held tables.old.configs h ≡ None → result ≡ Ok Badf }
{
    match text_asked(
        alloc,
        &settings.configs,
        &tables.configs,
        memory,
        h,
        p,
        n,
        b,
        room,
        count,
    ) {
        Ok(text) => Ok(put_value(memory, b, room, count, text.bytes())),
        Err(Refusal::Told(status)) => Ok(status),
        Err(Refusal::OutOfMemory) => Err(AllocError),
    }
}
