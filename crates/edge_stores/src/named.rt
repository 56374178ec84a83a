//! Stores by their names, texts by their keys, and names that handles stand for.
ghost use Rattle.std.specs.Prelude.{◌≡◌, ◌+◌, ◌∷◌, ◌++◌, [], length, is_some, None, Some, Ok, Err, IsTrue, IfOk, IfErr, OnOk, option_copied};
ghost use Rattle.edge_abi.specs.declared.status.Refusal.TheVariants.{Told};
ghost use Rattle.edge_abi.specs.declared.status.Status.TheVariants as status;
ghost use Rattle.edge_abi.specs.declared.status.Status.TheVariants.{Badf};
ghost use Rattle.edge_abi.specs.Memory as memories;
ghost use Rattle.edge_abi.specs.Memory.{has_range, number_put};
ghost use Rattle.edge_abi.specs.Refusals as refusals;
ghost use Rattle.edge_abi.specs.Refusals.{Judges};
ghost use Rattle.edge_abi.specs.Tables.{held};
ghost use Rattle.edge_stores.specs.Named as named;
ghost use Rattle.edge_stores.specs.Stores as spec;

use cache_types::Octets;
use edge_abi::{Refusal, Status, Table, placed, put_number, ranged, unless};
use fastly_toml::Texts;
use std::alloc::{AllocError, Global};
use std::collections::BTreeMap;
use wasm_memory::Memory;

/// Stores by their names.
pub type Stores = BTreeMap<Octets, Texts>;

/// What a handle names.
pub fn handled(table: &Table<Octets>, h: u32) -> Result<&Octets, Refusal>
    ensures ok { IfOk result (λ x. refusals.handled table.now h ≡ Ok x.now) }
    ensures err { IfErr result (λ refusal. refusals.handled table.now h ≡ Err refusal) }
{
    match table.get(h) {
        Some(x) => Ok(x),
        None => Err(Refusal::Told(Status::Badf)),
    }
}

/// The bytes of a range.
pub fn octets_at(alloc: Global, memory: &Memory, p: u32, n: u32) -> Result<Octets, AllocError>
    requires { IsTrue (has_range memory.now p n) }
    ensures { IfOk result (λ octets. octets ≡ memories.octets_at memory.now p n) }
{
    match memory.part(p, n) {
        Some(bytes) => Octets::of(alloc, bytes),
        None => unreachable!(),
    }
}

/// The name of a store that the settings have.
pub fn open_asked(
    alloc: Global,
    stores: &Stores,
    table: &Table<Octets>,
    memory: &Memory,
    p: u32,
    n: u32,
    o: u32,
) -> Result<Octets, Refusal>
    ensures { Judges (spec.open_asked stores.now table.now memory.now p n o) result }
{
    ranged(memory, p, n)?;
    placed(memory, o, 4)?;
    let name = octets_at(alloc, memory, p, n)?;
    unless(stores.contains_key(&name), Status::Badf)?;
    unless(!table.is_full(), Status::Limitexceeded)?;
    Ok(name)
}

/// The text of a key in a store.
pub fn text_named<'a>(stores: &'a Stores, name: &Octets, key: &Octets) -> Option<&'a Octets>
    ensures { option_copied result ≡ named.text_named stores.now name.now key.now }
{
    match stores.get(name) {
        Some(texts) => texts.get(key),
        None => None,
    }
}

/// The text of a key, and a buffer.
pub fn text_asked<'a>(
    alloc: Global,
    stores: &'a Stores,
    table: &Table<Octets>,
    memory: &Memory,
    h: u32,
    p: u32,
    n: u32,
    b: u32,
    room: u32,
    count: u32,
) -> Result<&'a Octets, Refusal>
    ensures ok { IfOk result (λ text. spec.text_asked stores.now table.now memory.now h p n b room count ≡ Ok text.now) }
    ensures err { IfErr result (λ refusal. Judges (spec.text_asked stores.now table.now memory.now h p n b room count) (Err refusal)) }
    ensures badf { IfErr result (λ refusal. held table.now h ≡ None → refusal ≡ Told Badf) }
{
    let name = handled(table, h)?;
    ranged(memory, p, n)?;
    ranged(memory, b, room)?;
    placed(memory, count, 4)?;
    let key = octets_at(alloc, memory, p, n)?;
    match text_named(stores, name, &key) {
        Some(text) => Ok(text),
        None => Err(Refusal::Told(Status::None)),
    }
}

/// One handle more, whose number is told.
pub fn add_name(
    table: &mut Table<Octets>,
    memory: &mut Memory,
    name: Octets,
    o: u32,
) -> Result<Status, AllocError>
    ensures status { IfOk result (λ said. said ≡ status.Ok) }
    ensures table { OnOk result (table.new ≡ table.old ++ Some name ∷ []) }
    ensures memory { OnOk result (memory.new ≡ number_put memory.old o 4 (length table.old + 1)) }
{
    match table.add(name) {
        Ok(number) => {
            put_number(memory, o, 4, u64::from(number));
            Ok(Status::Ok)
        }
        Err(_) => Err(AllocError),
    }
}
