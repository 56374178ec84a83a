//! The rows of `fastly_secret_store`.
ghost use Rattle.std.specs.Prelude.{◌≡◌, Ok, Err, None, IfOk, IfErr};
ghost use Rattle.edge_abi.specs.declared.status.Status.TheVariants.{Badf};
ghost use Rattle.edge_abi.specs.declared.status.Refusal.TheVariants.{Told};
ghost use Rattle.edge_abi.specs.Goes.{Ends};
ghost use Rattle.edge_abi.specs.Refusals.{Judges};
ghost use Rattle.edge_abi.specs.Tables.{held};
ghost use Rattle.edge_stores.specs.Stores as rows;

use crate::named::{add_name, handled, octets_at, open_asked, text_named};
use crate::tables::StoreTables;
use cache_types::{Copied, Octets};
use edge_abi::{Refusal, Status, placed, put_value, ranged, unless};
use fastly_toml::Settings;
use std::alloc::{AllocError, Global};
use wasm_memory::Memory;

/// Opens the secret store with a name.
pub fn secret_store_open(
    alloc: Global,
    tables: &mut StoreTables,
    settings: &Settings,
    memory: &mut Memory,
    p: u32,
    n: u32,
    o: u32,
) -> Result<Status, AllocError>
    ensures { IfOk result (λ status. Ends (rows.secret_store_open tables.old settings.now memory.old p n o) status tables.new memory.new) }
{
    match open_asked(alloc, &settings.secrets, &tables.stores, memory, p, n, o) {
        Ok(name) => add_name(&mut tables.stores, memory, name, o),
        Err(Refusal::Told(status)) => Ok(status),
        Err(Refusal::OutOfMemory) => Err(AllocError),
    }
}

fn secret_asked(
    alloc: Global,
    tables: &StoreTables,
    settings: &Settings,
    memory: &Memory,
    h: u32,
    p: u32,
    n: u32,
    o: u32,
) -> Result<Octets, Refusal>
    ensures asked { Judges (rows.secret_asked tables.now settings.now memory.now h p n o) result }
    ensures badf { held tables.now.stores h ≡ None → result ≡ Err (Told Badf) }
{
    let name = handled(&tables.stores, h)?;
    ranged(memory, p, n)?;
    placed(memory, o, 4)?;
    let key = octets_at(alloc, memory, p, n)?;
    match text_named(&settings.secrets, name, &key) {
        Some(secret) => {
            unless(!tables.secrets.is_full(), Status::Limitexceeded)?;
            Ok(secret.copy(alloc)?)
        }
        None => Err(Refusal::Told(Status::None)),
    }
}

/// Gives the secret of a key.
pub fn secret_store_get(
    alloc: Global,
    tables: &mut StoreTables,
    settings: &Settings,
    memory: &mut Memory,
    h: u32,
    p: u32,
    n: u32,
    o: u32,
) -> Result<Status, AllocError>
    ensures row { IfOk result (λ status. Ends (rows.secret_store_get tables.old settings.now memory.old h p n o) status tables.new memory.new) }
    ensures badf { held tables.old.stores h ≡ None → result ≡ Ok Badf }
{
    match secret_asked(alloc, tables, settings, memory, h, p, n, o) {
        Ok(secret) => add_name(&mut tables.secrets, memory, secret, o),
        Err(Refusal::Told(status)) => Ok(status),
        Err(Refusal::OutOfMemory) => Err(AllocError),
    }
}

fn plaintext_asked<'a>(
    tables: &'a StoreTables,
    memory: &Memory,
    h: u32,
    b: u32,
    room: u32,
    count: u32,
) -> Result<&'a Octets, Refusal>
    ensures ok { IfOk result (λ secret. rows.plaintext_asked tables.now memory.now h b room count ≡ Ok secret.now) }
    ensures err { IfErr result (λ refusal. rows.plaintext_asked tables.now memory.now h b room count ≡ Err refusal) }
{
    let secret = handled(&tables.secrets, h)?;
    ranged(memory, b, room)?;
    placed(memory, count, 4)?;
    Ok(secret)
}

/// Tells the bytes of a secret.
pub fn secret_store_plaintext(
    _alloc: Global,
    tables: &mut StoreTables,
    _settings: &Settings,
    memory: &mut Memory,
    h: u32,
    b: u32,
    room: u32,
    count: u32,
) -> Result<Status, AllocError>
    ensures row { IfOk result (λ status. Ends (rows.secret_store_plaintext tables.old memory.old h b room count) status tables.new memory.new) }
    ensures badf { held tables.old.secrets h ≡ None → result ≡ Ok Badf }
{
    match plaintext_asked(tables, memory, h, b, room, count) {
        Ok(secret) => Ok(put_value(memory, b, room, count, secret.bytes())),
        Err(Refusal::Told(status)) => Ok(status),
        Err(Refusal::OutOfMemory) => Err(AllocError),
    }
}
