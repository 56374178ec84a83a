//! The names of the files that the stores have, in the order in which they are read.
ghost use Rattle.std.specs.Prelude.{◌≡◌, ◌++◌, map, codes, IfOk};
ghost use Rattle.toml.specs.View.{view, table_view, items_view};
ghost use Rattle.fastly_toml.specs.Document.{members_at, text_at};
ghost use Rattle.fastly_toml.specs.Files.{file_of, store_files, item_files, list_files, files_in, files_of};
ghost use Rattle.fastly_toml.specs.Stores.{files_by};

use crate::document::{table_at, text_at};
use crate::kinds::is_json;
use crate::stores::StoreKind;
use std::alloc::{AllocError, Global};
use toml::{Table, Value};

/// Names, which stand in the document.
pub type Names<'a> = Vec<&'a str>;

/// With the file that a value names.
fn with_file<'a>(names: Names<'a>, value: &'a Value) -> Result<Names<'a>, AllocError>
    ensures { IfOk result (λ made. map (λ name. name.now) made.items ≡ map (λ name. name.now) names.entry.items ++ file_of (text_at (codes "file") (view value.now))) }
{
    let mut names = names;
    if let Some(name) = text_at(value, "file") {
        names.push(name)?;
    }
    Ok(names)
}

/// With the file of a store of texts.
fn with_store<'a>(names: Names<'a>, store: &'a Value) -> Result<Names<'a>, AllocError>
    ensures { IfOk result (λ made. map (λ name. name.now) made.items ≡ map (λ name. name.now) names.entry.items ++ store_files (view store.now)) }
{
    if is_json(store) {
        with_file(names, store)
    } else {
        Ok(names)
    }
}

/// With the files of these entries.
fn with_entries<'a>(names: Names<'a>, entries: &'a [Value]) -> Result<Names<'a>, AllocError>
    ensures { IfOk result (λ made. map (λ name. name.now) made.items ≡ map (λ name. name.now) names.entry.items ++ item_files (items_view entries.now)) }
{
    let mut names = names;
    for entry in entries {
        names = with_file(names, entry)?;
    }
    Ok(names)
}

/// With the files of a list of entries.
fn with_list<'a>(names: Names<'a>, store: &'a Value) -> Result<Names<'a>, AllocError>
    ensures { IfOk result (λ made. map (λ name. name.now) made.items ≡ map (λ name. name.now) names.entry.items ++ list_files (view store.now)) }
{
    match store.as_array() {
        Some(entries) => with_entries(names, entries),
        None => Ok(names),
    }
}

/// With the files of a store of this kind.
fn with_one<'a>(
    names: Names<'a>,
    kind: StoreKind,
    store: &'a Value,
) -> Result<Names<'a>, AllocError>
    ensures { IfOk result (λ made. map (λ name. name.now) made.items ≡ map (λ name. name.now) names.entry.items ++ files_by kind (view store.now)) }
{
    match kind {
        StoreKind::OfTexts => with_store(names, store),
        StoreKind::OfEntries => with_list(names, store),
    }
}

/// With the files of the stores in a table.
fn with_table<'a>(
    names: Names<'a>,
    kind: StoreKind,
    table: &'a Table,
) -> Result<Names<'a>, AllocError>
    ensures { IfOk result (λ made. map (λ name. name.now) made.items ≡ map (λ name. name.now) names.entry.items ++ files_in (files_by kind) (table_view table.now)) }
{
    let mut names = names;
    for (_, store) in table.iter() {
        names = with_one(names, kind, store)?;
    }
    Ok(names)
}

/// With the files of the stores in this table of `local_server`.
fn with_stores<'a>(
    names: Names<'a>,
    kind: StoreKind,
    document: &'a Table,
    name: &str,
) -> Result<Names<'a>, AllocError>
    ensures { IfOk result (λ made. map (λ name. name.now) made.items ≡ map (λ name. name.now) names.entry.items ++ files_in (files_by kind) (members_at name.now (table_view document.now))) }
{
    match table_at(document, name) {
        Some(table) => with_table(names, kind, table),
        None => Ok(names),
    }
}

/// The names of all files of a document.
pub fn files_of(alloc: Global, document: &Table) -> Result<Names<'_>, AllocError>
    ensures { IfOk result (λ names. map (λ name. name.now) names.items ≡ files_of (table_view document.now)) }
{
    let names = Vec::new(alloc);
    let names = with_stores(names, StoreKind::OfTexts, document, "dictionaries")?;
    let names = with_stores(names, StoreKind::OfTexts, document, "config_stores")?;
    let names = with_stores(names, StoreKind::OfEntries, document, "secret_stores")?;
    with_stores(names, StoreKind::OfEntries, document, "kv_stores")
}
