//! The bytes of the files, in the order in which they were read: which are left behind those of a store.
ghost use Rattle.std.specs.Prelude.{◌≡◌, map, length, drop, codes};
ghost use Rattle.toml.specs.View.{view, table_view, items_view};
ghost use Rattle.fastly_toml.specs.Document.{members_at, text_at};
ghost use Rattle.fastly_toml.specs.Files.{file_of, store_files, item_files, list_files, files_in};
ghost use Rattle.fastly_toml.specs.Maps.{pieces_after};
ghost use Rattle.fastly_toml.specs.Stores.{files_by};

use crate::document::{table_at, text_at};
use crate::kinds::is_json;
use crate::stores::StoreKind;
use toml::{Table, Value};

/// All but the first.
fn tail(pieces: &[Vec<u8>]) -> &[Vec<u8>]
    ensures { map (λ piece. piece.items) result.now ≡ drop 1 (map (λ piece. piece.items) pieces.now) }
{
    match pieces.split_first() {
        Some((_, rest)) => rest,
        None => pieces,
    }
}

/// Behind that of the file that a value names.
pub fn behind_value<'a>(value: &Value, pieces: &'a [Vec<u8>]) -> &'a [Vec<u8>]
    ensures { map (λ piece. piece.items) result.now ≡ drop (length (file_of (text_at (codes "file") (view value.now)))) (map (λ piece. piece.items) pieces.now) }
{
    match text_at(value, "file") {
        Some(_) => tail(pieces),
        None => pieces,
    }
}

fn behind_store<'a>(store: &Value, pieces: &'a [Vec<u8>]) -> &'a [Vec<u8>]
    ensures { map (λ piece. piece.items) result.now ≡ drop (length (store_files (view store.now))) (map (λ piece. piece.items) pieces.now) }
{
    if is_json(store) {
        behind_value(store, pieces)
    } else {
        pieces
    }
}

fn behind_entries<'a>(entries: &[Value], pieces: &'a [Vec<u8>]) -> &'a [Vec<u8>]
    ensures { map (λ piece. piece.items) result.now ≡ drop (length (item_files (items_view entries.now))) (map (λ piece. piece.items) pieces.now) }
{
    let mut rest = pieces;
    for entry in entries {
        rest = behind_value(entry, rest);
    }
    rest
}

fn behind_list<'a>(store: &Value, pieces: &'a [Vec<u8>]) -> &'a [Vec<u8>]
    ensures { map (λ piece. piece.items) result.now ≡ drop (length (list_files (view store.now))) (map (λ piece. piece.items) pieces.now) }
{
    match store.as_array() {
        Some(entries) => behind_entries(entries, pieces),
        None => pieces,
    }
}

/// Behind those of a store of this kind.
pub fn behind_one<'a>(kind: StoreKind, store: &Value, pieces: &'a [Vec<u8>]) -> &'a [Vec<u8>]
    ensures { map (λ piece. piece.items) result.now ≡ drop (length (files_by kind (view store.now))) (map (λ piece. piece.items) pieces.now) }
{
    match kind {
        StoreKind::OfTexts => behind_store(store, pieces),
        StoreKind::OfEntries => behind_list(store, pieces),
    }
}

fn behind_table<'a>(kind: StoreKind, table: &Table, pieces: &'a [Vec<u8>]) -> &'a [Vec<u8>]
    ensures { map (λ piece. piece.items) result.now ≡ drop (length (files_in (files_by kind) (table_view table.now))) (map (λ piece. piece.items) pieces.now) }
{
    let mut rest = pieces;
    for (_, store) in table.iter() {
        rest = behind_one(kind, store, rest);
    }
    rest
}

/// Behind those of the stores in this table of `local_server`.
pub fn behind<'a>(
    kind: StoreKind,
    document: &Table,
    name: &str,
    pieces: &'a [Vec<u8>],
) -> &'a [Vec<u8>]
    ensures { map (λ piece. piece.items) result.now ≡ pieces_after (files_by kind) (members_at name.now (table_view document.now)) (map (λ piece. piece.items) pieces.now) }
{
    match table_at(document, name) {
        Some(table) => behind_table(kind, table, pieces),
        None => pieces,
    }
}
