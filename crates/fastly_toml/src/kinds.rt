//! What is wrong with a document of settings.
ghost use Rattle.std.specs.Prelude.{◌≡◌, false, not, option_map, option_and_then};
ghost use Rattle.std.specs.Option.{option_map_or};
ghost use Rattle.toml.specs.Data.{as_table};
ghost use Rattle.fastly_toml.specs.Document.{any_member};
ghost use Rattle.toml.specs.View.{view, table_view};
ghost use Rattle.fastly_toml.specs.Kinds.{lacks_url, is_bad_url, has_bad_url, is_no_text, is_inline, is_json, is_bad_store, is_bad_list, has_no_table, has_bad_store, kind_of};

use crate::document::{Test, any_at, any_member, is_no_table, local, member, says, text_at};
use crate::fault::SettingsKind;
use crate::lists::is_bad_list;
use crate::urls::is_url;
use toml::{Table, Value};

/// A backend has no url.
struct LacksUrl;

impl Test for LacksUrl {
    ghost holds = { λ _. lacks_url };

    fn test(&self, value: &Value) -> bool {
        value.get("url").is_none()
    }
}

fn is_bad_url(url: &Value) -> bool
    ensures { result ≡ is_bad_url (view url.now) }
{
    match url.as_str() {
        Some(text) => !is_url(text.as_bytes()),
        None => true,
    }
}

/// A backend has a url that is no text of the form.
struct HasBadUrl;

impl Test for HasBadUrl {
    ghost holds = { λ _. has_bad_url };

    fn test(&self, value: &Value) -> bool {
        match value.get("url") {
            Some(url) => is_bad_url(url),
            None => false,
        }
    }
}

struct IsNoText;

impl Test for IsNoText {
    ghost holds = { λ _. is_no_text };

    fn test(&self, value: &Value) -> bool {
        value.as_str().is_none()
    }
}

/// A table of texts.
fn is_of_texts(contents: Option<&Value>) -> bool
    ensures { result ≡ option_map_or (λ texts. not (any_member is_no_text texts)) (option_and_then as_table (option_map (λ value. view value.now) contents.entry)) false }
{
    match contents {
        Some(value) => match value.as_table() {
            Some(texts) => !any_member(texts, &IsNoText),
            None => false,
        },
        None => false,
    }
}

/// A store whose texts stand in the settings.
fn is_inline(store: &Value) -> bool
    ensures { result ≡ is_inline (view store.now) }
{
    says(store, "format", "inline-toml") && is_of_texts(store.get("contents"))
}

/// A store whose texts stand in a file.
pub fn is_json(store: &Value) -> bool
    ensures { result ≡ is_json (view store.now) }
{
    says(store, "format", "json") && text_at(store, "file").is_some()
}

struct IsBadStore;

impl Test for IsBadStore {
    ghost holds = { λ _. is_bad_store };

    fn test(&self, value: &Value) -> bool {
        !(is_inline(value) || is_json(value))
    }
}

struct IsBadList;

impl Test for IsBadList {
    ghost holds = { λ _. is_bad_list };

    fn test(&self, value: &Value) -> bool {
        is_bad_list(value)
    }
}

/// One of the tables is there and is no table.
fn has_no_table(document: &Table) -> bool
    ensures { result ≡ has_no_table (table_view document.now) }
{
    is_no_table(member(document, "local_server"))
        || is_no_table(local(document, "backends"))
        || is_no_table(local(document, "dictionaries"))
        || is_no_table(local(document, "config_stores"))
        || is_no_table(local(document, "secret_stores"))
        || is_no_table(local(document, "kv_stores"))
}

fn has_bad_store(document: &Table) -> bool
    ensures { result ≡ has_bad_store (table_view document.now) }
{
    any_at(document, "dictionaries", &IsBadStore)
        || any_at(document, "config_stores", &IsBadStore)
        || any_at(document, "secret_stores", &IsBadList)
        || any_at(document, "kv_stores", &IsBadList)
}

/// The first kind that stands in a document.
pub fn kind_of(document: &Table) -> Option<SettingsKind>
    ensures { result ≡ kind_of (table_view document.now) }
{
    if any_at(document, "backends", &LacksUrl) {
        Some(SettingsKind::MissingUrl)
    } else if any_at(document, "backends", &HasBadUrl) {
        Some(SettingsKind::BadUrl)
    } else if has_no_table(document) || has_bad_store(document) {
        Some(SettingsKind::BadStore)
    } else {
        None
    }
}
