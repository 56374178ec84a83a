//! Bytes as text, and the texts of a JSON object.
ghost use Rattle.std.specs.Prelude.{◌≡◌, ◌⊎◌, Some, None, IfOk, IfErr, option_map, option_and_then};
ghost use Rattle.serde_json.specs.Read.{read as read_text};
ghost use Rattle.serde_json.specs.View.{view, members_view};
ghost use Rattle.fastly_toml.specs.Texts.{text_of, pairs_of, pairs_in, json_pairs};
ghost use Rattle.fastly_toml.specs.Maps.{map_of};

use crate::settings::Texts;
use cache_types::Octets;
use serde_json::{Map, Value};
use std::alloc::{AllocError, Global};

/// The bytes as text, where they are UTF-8.
pub fn text_of(bytes: &[u8]) -> Option<&str>
    ensures { option_map (λ text. text.now) result ≡ text_of bytes.now }
{
    match str::from_utf8(bytes) {
        Ok(text) => Some(text),
        Err(_) => None,
    }
}

/// The value that a JSON text is.
fn json_of(alloc: Global, text: &str) -> Result<Option<Value>, AllocError>
    ensures { IfOk result (λ value. option_map view value ≡ read_text text.now) }
{
    match Value::from_str(alloc, text) {
        Ok(value) => Ok(Some(value)),
        Err(error) if error.is_memory() => Err(AllocError),
        Err(_) => Ok(None),
    }
}

/// The texts of an object by their names, where each of its values is a text.
fn texts_of(alloc: Global, members: &Map<String, Value>) -> Result<Option<Texts>, AllocError>
    ensures { IfOk result (λ texts. option_map (λ made. made.entries) texts ≡ option_map map_of (pairs_of (members_view members.now.entries))) }
{
    let mut texts = Texts::new(alloc);
    for (name, value) in members.iter() {
        match value.as_str() {
            Some(text) => {
                let name = Octets::of(alloc, name.as_bytes())?;
                texts.insert(name, Octets::of(alloc, text.as_bytes())?)?;
            }
            None => return Ok(None),
        }
    }
    Ok(Some(texts))
}

fn texts_in(alloc: Global, value: &Value) -> Result<Option<Texts>, AllocError>
    ensures { IfOk result (λ texts. option_map (λ made. made.entries) texts ≡ option_map map_of (pairs_in (view value.now))) }
{
    match value.as_object() {
        Some(members) => texts_of(alloc, members),
        None => Ok(None),
    }
}

fn texts_read(alloc: Global, text: &str) -> Result<Option<Texts>, AllocError>
    ensures { IfOk result (λ texts. option_map (λ made. made.entries) texts ≡ option_map map_of (option_and_then pairs_in (read_text text.now))) }
{
    match json_of(alloc, text)? {
        Some(value) => texts_in(alloc, &value),
        None => Ok(None),
    }
}

/// What the bytes of a store's file hold, where they are a JSON object of texts.
pub fn json_texts(alloc: Global, bytes: &[u8]) -> Result<Option<Texts>, AllocError>
    ensures { IfOk result (λ texts. option_map (λ made. made.entries) texts ≡ option_map map_of (json_pairs bytes.now)) }
{
    match text_of(bytes) {
        Some(text) => texts_read(alloc, text),
        None => Ok(None),
    }
}
