//! Stores that are lists of entries: secrets, and keys with values.
ghost use Rattle.std.specs.Prelude.{◌≡◌};
ghost use Rattle.toml.specs.View.{view, items_view};
ghost use Rattle.fastly_toml.specs.Document.{says};
ghost use Rattle.fastly_toml.specs.Kinds.{has_alone, is_entry, is_bad_entry, stands_again, repeats_key, are_bad_entries, is_bad_list};

use crate::document::{Test, any_item, says, text_at};
use toml::Value;

/// It has a text under the one name, and nothing under the other.
fn has_alone(entry: &Value, name: &str, other: &str) -> bool
    ensures { result ≡ has_alone name.now other.now (view entry.now) }
{
    text_at(entry, name).is_some() && entry.get(other).is_none()
}

/// It has a key, and exactly one of data and a file.
fn is_entry(entry: &Value) -> bool
    ensures { result ≡ is_entry (view entry.now) }
{
    text_at(entry, "key").is_some()
        && (has_alone(entry, "data", "file") || has_alone(entry, "file", "data"))
}

struct IsBadEntry;

impl Test for IsBadEntry {
    ghost holds = { λ _. is_bad_entry };

    fn test(&self, value: &Value) -> bool {
        !is_entry(value)
    }
}

/// An entry has this key.
#[derive(Drop)]
struct HasKey<'a> {
    key: &'a str,
}

impl<'a> Test for HasKey<'a> {
    ghost use Rattle.std.specs.Prelude.{codes};

    ghost holds = { λ test. says (codes "key") test.key.now };

    fn test(&self, value: &Value) -> bool {
        says(value, "key", self.key)
    }
}

/// A later entry has the key of this one.
fn stands_again(entry: &Value, later: &[Value]) -> bool
    ensures { result ≡ stands_again (view entry.now) (items_view later.now) }
{
    match text_at(entry, "key") {
        Some(key) => any_item(later, &HasKey { key }),
        None => false,
    }
}

fn repeats_key(entries: &[Value]) -> bool
    ensures { result ≡ repeats_key (items_view entries.now) }
{
    for place in 0..entries.len() {
        if stands_again(&entries[place], &entries[place + 1..]) {
            return true;
        }
    }
    false
}

pub fn is_bad_list(store: &Value) -> bool
    ensures { result ≡ is_bad_list (view store.now) }
{
    match store.as_array() {
        Some(entries) => any_item(entries, &IsBadEntry) || repeats_key(entries),
        None => true,
    }
}
