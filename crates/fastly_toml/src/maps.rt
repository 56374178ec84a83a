//! The settings, from the document and the bytes of its files.
ghost use Rattle.std.specs.Prelude.{◌≡◌, map, codes, IfOk, IfSome, option_map, option_and_then};
ghost use Rattle.toml.specs.View.{view, table_view};
ghost use Rattle.fastly_toml.specs.Urls.{backend_of};
ghost use Rattle.fastly_toml.specs.Document.{members_at, text_at};
ghost use Rattle.fastly_toml.specs.Maps.{map_of, backend_pairs, stores_of, stores_shown};

use crate::document::{table_at, text_at};
use crate::pieces::behind;
use crate::settings::{Backend, Settings};
use crate::stores::{StoreKind, stores_at};
use crate::urls::backend_of;
use cache_types::Octets;
use std::alloc::{AllocError, Global};
use std::collections::BTreeMap;
use toml::{Table, Value};

/// The backend that a value tells, if it has a url.
fn backend_in(alloc: Global, value: &Value) -> Result<Option<Backend>, AllocError>
    ensures { IfOk result (λ backend. backend ≡ option_and_then backend_of (text_at (codes "url") (view value.now))) }
{
    match text_at(value, "url") {
        Some(url) => backend_of(alloc, url.as_bytes()),
        None => Ok(None),
    }
}

/// The backends of a table.
fn backends_in(alloc: Global, table: &Table) -> Result<BTreeMap<Octets, Backend>, AllocError>
    ensures { IfOk result (λ backends. backends.entries ≡ map_of (backend_pairs (table_view table.now))) }
{
    let mut backends = BTreeMap::new(alloc);
    for (name, value) in table.iter() {
        if let Some(backend) = backend_in(alloc, value)? {
            backends.insert(Octets::of(alloc, name.as_bytes())?, backend)?;
        }
    }
    Ok(backends)
}

/// The backends of a document.
pub fn backends_of(alloc: Global, document: &Table) -> Result<BTreeMap<Octets, Backend>, AllocError>
    ensures { IfOk result (λ backends. backends.entries ≡ map_of (backend_pairs (members_at (codes "backends") (table_view document.now)))) }
{
    match table_at(document, "backends") {
        Some(table) => backends_in(alloc, table),
        None => Ok(BTreeMap::new(alloc)),
    }
}

/// The settings of a document and the bytes of its files, where none of these is bad.
pub fn settings_of(
    alloc: Global,
    document: &Table,
    pieces: &[Vec<u8>],
) -> Result<Option<Settings>, AllocError>
    ensures backends { IfOk result (λ made. IfSome made (λ settings. settings.backends.entries ≡ map_of (backend_pairs (members_at (codes "backends") (table_view document.now))))) }
    ensures stores { IfOk result (λ made. option_map stores_shown made ≡ stores_of (table_view document.now) (map (λ piece. piece.items) pieces.now)) }
{
    let rest = pieces;
    let Some(dictionaries) = stores_at(alloc, StoreKind::OfTexts, document, "dictionaries", rest)?
    else {
        return Ok(None);
    };
    let rest = behind(StoreKind::OfTexts, document, "dictionaries", rest);
    let Some(configs) = stores_at(alloc, StoreKind::OfTexts, document, "config_stores", rest)?
    else {
        return Ok(None);
    };
    let rest = behind(StoreKind::OfTexts, document, "config_stores", rest);
    let Some(secrets) = stores_at(alloc, StoreKind::OfEntries, document, "secret_stores", rest)?
    else {
        return Ok(None);
    };
    let rest = behind(StoreKind::OfEntries, document, "secret_stores", rest);
    let Some(kv) = stores_at(alloc, StoreKind::OfEntries, document, "kv_stores", rest)? else {
        return Ok(None);
    };
    Ok(Some(Settings {
        backends: backends_of(alloc, document)?,
        dictionaries,
        configs,
        secrets,
        kv,
    }))
}
