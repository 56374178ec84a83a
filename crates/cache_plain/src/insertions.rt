//! The insertions among the entries.

ghost use Rattle.std.specs.Prelude.{◌≡◌};
ghost use Rattle.cache_types.specs.Entries.{newest_first};
ghost use Rattle.cache_types.specs.Objects.{insertion_by, insertion_of, insertion_at};

use cache_log::{asked_at, is_made};
use cache_types::{CacheCall, Entry, Fields, Octets, Writing};
use std::marker::Model;

/// An insertion, seen in the entries where it stands.
#[derive(Drop)]
pub struct Insertion<'a> {
    pub object: u64,
    pub guest: u64,
    pub key: &'a Octets,
    pub headers: &'a Fields,
    pub writing: &'a Writing,
}

impl<'a> Model for Insertion<'a> {
    ghost use Rattle.cache_types.specs.Objects.{Insertion};

    ghost Value = { Insertion };

    ghost view = { λ made. record { object = made.object; guest = made.guest; key = made.key.now; headers = made.headers.now; writing = made.writing.now } };
}

/// An Insert has its own headers, a TxInsert those of the lookup that it names.
fn insertion_by<'a>(before: &'a [Entry], entry: &'a Entry) -> Option<Insertion<'a>>
    ensures { result ≡ insertion_by (newest_first before.now) entry.now entry.now.call }
{
    match &entry.call {
        CacheCall::Insert {
            key,
            headers,
            writing,
        } => Some(Insertion {
            object: entry.number,
            guest: entry.guest,
            key,
            headers,
            writing,
        }),
        CacheCall::TxInsert { tx, writing } => match asked_at(before, *tx) {
            Some(asked) => Some(Insertion {
                object: entry.number,
                guest: entry.guest,
                key: asked.key,
                headers: asked.headers,
                writing,
            }),
            None => None,
        },
        _ => None,
    }
}

/// The insertion that an entry is, where its reply is Made.
pub fn insertion_of<'a>(before: &'a [Entry], entry: &'a Entry) -> Option<Insertion<'a>>
    ensures { result ≡ insertion_of (newest_first before.now) entry.now }
{
    if is_made(&entry.reply) {
        insertion_by(before, entry)
    } else {
        None
    }
}

/// The insertion that made this object.
pub fn insertion_at(entries: &[Entry], object: u64) -> Option<Insertion<'_>>
    ensures { result ≡ insertion_at (newest_first entries.now) object }
{
    let mut found = None;
    for i in 0..entries.len() {
        if entries[i].number == object {
            if let Some(made) = insertion_of(&entries[..i], &entries[i]) {
                found = Some(made);
            }
        }
    }
    found
}
