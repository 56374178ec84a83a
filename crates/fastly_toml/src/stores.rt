//! The stores, from the document and the bytes of their files.
ghost use Rattle.std.specs.Prelude.{◌≡◌, map, length, drop, codes, IfOk, option_map};
ghost use Rattle.std.specs.BTreeMap.{insert_entry};
ghost use Rattle.std.specs.Ordering.{nat_cmp};
ghost use Rattle.std.specs.Cmp.Lexicographic.{slice_cmp};
ghost use Rattle.toml.specs.View.{view, table_view, items_view};
ghost use Rattle.fastly_toml.specs.Document.{members_at, text_at};
ghost use Rattle.fastly_toml.specs.Files.{file_of};
ghost use Rattle.fastly_toml.specs.Maps.{map_of, inline_pairs, contents_of, store_pairs, bytes_of, item_pairs, list_pairs, listed, put_all, stores_in, shown};
ghost use Rattle.fastly_toml.specs.Stores.{files_by, pairs_by};

use crate::document::{table_at, text_at};
use crate::kinds::is_json;
use crate::pieces::{behind_one, behind_value};
use crate::settings::Texts;
use crate::texts::json_texts;
use cache_types::Octets;
use std::alloc::{AllocError, Global};
use std::collections::BTreeMap;
use toml::{Table, Value};

/// What a store is in the settings.
#[derive(Clone, Copy)]
pub enum StoreKind {
    /// A table with a format, whose texts stand in it or in a JSON file.
    OfTexts,
    /// A list of entries, each with a key, and with data or a file.
    OfEntries,
}

/// Stores by their names.
pub type Stores = BTreeMap<Octets, Texts>;

/// The texts of a table.
fn inline_texts(alloc: Global, contents: &Table) -> Result<Texts, AllocError>
    ensures { IfOk result (λ texts. texts.entries ≡ map_of (inline_pairs (table_view contents.now))) }
{
    let mut texts = Texts::new(alloc);
    for (name, value) in contents.iter() {
        if let Some(text) = value.as_str() {
            let name = Octets::of(alloc, name.as_bytes())?;
            texts.insert(name, Octets::of(alloc, text.as_bytes())?)?;
        }
    }
    Ok(texts)
}

fn contents_of(alloc: Global, contents: Option<&Value>) -> Result<Texts, AllocError>
    ensures { IfOk result (λ texts. texts.entries ≡ map_of (contents_of (option_map (λ value. view value.now) contents.entry))) }
{
    match contents {
        Some(Value::Table(table)) => inline_texts(alloc, table),
        _ => Ok(Texts::new(alloc)),
    }
}

/// The texts of a store of texts, where its file, if it has one, is a JSON object of texts.
fn store_texts(
    alloc: Global,
    store: &Value,
    pieces: &[Vec<u8>],
) -> Result<Option<Texts>, AllocError>
    ensures { IfOk result (λ texts. option_map (λ made. made.entries) texts ≡ option_map map_of (store_pairs (view store.now) (map (λ piece. piece.items) pieces.now))) }
{
    if is_json(store) {
        match pieces.first() {
            Some(piece) => json_texts(alloc, piece),
            None => Ok(None),
        }
    } else {
        Ok(Some(contents_of(alloc, store.get("contents"))?))
    }
}

/// The bytes of an entry: its data, or those of its file.
fn bytes_of<'a>(entry: &'a Value, pieces: &'a [Vec<u8>]) -> Option<&'a [u8]>
    ensures { option_map (λ bytes. bytes.now) result ≡ bytes_of (text_at (codes "data") (view entry.now)) (map (λ piece. piece.items) pieces.now) }
{
    match text_at(entry, "data") {
        Some(text) => Some(text.as_bytes()),
        None => match pieces.first() {
            Some(piece) => Some(piece.as_slice()),
            None => None,
        },
    }
}

/// With an entry, where it has a key and bytes.
fn with_entry(
    alloc: Global,
    texts: Texts,
    key: Option<&str>,
    bytes: Option<&[u8]>,
) -> Result<Texts, AllocError>
    ensures { IfOk result (λ made. made.entries ≡ put_all texts.entries (listed (option_map (λ key. key.now) key.entry) (option_map (λ bytes. bytes.now) bytes.entry))) }
{
    let mut texts = texts;
    if let Some(key) = key {
        if let Some(bytes) = bytes {
            let key = Octets::of(alloc, key.as_bytes())?;
            texts.insert(key, Octets::of(alloc, bytes)?)?;
        }
    }
    Ok(texts)
}

/// The bytes of entries by their keys.
fn entry_texts(alloc: Global, entries: &[Value], pieces: &[Vec<u8>]) -> Result<Texts, AllocError>
    ensures { IfOk result (λ texts. texts.entries ≡ map_of (item_pairs (items_view entries.now) (map (λ piece. piece.items) pieces.now))) }
{
    let mut texts = Texts::new(alloc);
    let mut rest = pieces;
    for entry in entries {
        texts = with_entry(alloc, texts, text_at(entry, "key"), bytes_of(entry, rest))?;
        rest = behind_value(entry, rest);
    }
    Ok(texts)
}

fn list_texts(alloc: Global, store: &Value, pieces: &[Vec<u8>]) -> Result<Option<Texts>, AllocError>
    ensures { IfOk result (λ texts. option_map (λ made. made.entries) texts ≡ option_map map_of (list_pairs (view store.now) (map (λ piece. piece.items) pieces.now))) }
{
    match store.as_array() {
        Some(entries) => Ok(Some(entry_texts(alloc, entries, pieces)?)),
        None => Ok(Some(Texts::new(alloc))),
    }
}

/// The texts of a store of this kind.
fn texts_by(
    alloc: Global,
    kind: StoreKind,
    store: &Value,
    pieces: &[Vec<u8>],
) -> Result<Option<Texts>, AllocError>
    ensures { IfOk result (λ texts. option_map (λ made. made.entries) texts ≡ option_map map_of (pairs_by kind (view store.now) (map (λ piece. piece.items) pieces.now))) }
{
    match kind {
        StoreKind::OfTexts => store_texts(alloc, store, pieces),
        StoreKind::OfEntries => list_texts(alloc, store, pieces),
    }
}

/// With one more store.
#[tactic(auto, using(crate::proofs::Loops::shown_put))]
fn with_store(alloc: Global, stores: Stores, name: &str, texts: Texts) -> Result<Stores, AllocError>
    ensures { IfOk result (λ made. shown made.entries ≡ insert_entry (slice_cmp nat_cmp) (shown stores.entries) name.now texts.entries) }
{
    let mut stores = stores;
    stores.insert(Octets::of(alloc, name.as_bytes())?, texts)?;
    Ok(stores)
}

/// The stores of a table, where none of their files is bad.
fn stores_in(
    alloc: Global,
    kind: StoreKind,
    table: &Table,
    pieces: &[Vec<u8>],
) -> Result<Option<Stores>, AllocError>
    ensures { IfOk result (λ stores. option_map (λ made. shown made.entries) stores ≡ option_map map_of (stores_in (files_by kind) (pairs_by kind) (table_view table.now) (map (λ piece. piece.items) pieces.now))) }
{
    let mut stores = Stores::new(alloc);
    let mut rest = pieces;
    for (name, store) in table.iter() {
        let after = behind_one(kind, store, rest);
        match texts_by(alloc, kind, store, rest)? {
            Some(texts) => {
                stores = with_store(alloc, stores, name.as_str(), texts)?;
                rest = after;
            }
            None => return Ok(None),
        }
    }
    Ok(Some(stores))
}

/// The stores in this table of `local_server`, where none of their files is bad.
pub fn stores_at(
    alloc: Global,
    kind: StoreKind,
    document: &Table,
    name: &str,
    pieces: &[Vec<u8>],
) -> Result<Option<Stores>, AllocError>
    ensures { IfOk result (λ stores. option_map (λ made. shown made.entries) stores
        ≡ option_map map_of (stores_in (files_by kind) (pairs_by kind) (members_at name.now (table_view document.now)) (map (λ piece. piece.items) pieces.now))) }
{
    match table_at(document, name) {
        Some(table) => stores_in(alloc, kind, table, pieces),
        None => Ok(Some(Stores::new(alloc))),
    }
}
