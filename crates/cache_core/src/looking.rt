//! What an earlier lookup asked for, and what it found.

ghost use Rattle.std.specs.Prelude.{◌≡◌};
ghost use Rattle.cache_types.specs.Entries.{newest_first, asked_at};
ghost use Rattle.cache_types.specs.Legal.{IsLegal};
ghost use Rattle.cache_types.specs.Objects.{hit_at};

use crate::entries::entry_at;
use cache_log::{Asked, asked_in, hit_of};
use cache_types::Entry;

/// What the lookup with this number asked for.
pub fn asked_at(entries: &[Entry], number: u64) -> Option<Asked<'_>>
    requires { IsLegal entries.now }
    ensures { result ≡ asked_at (newest_first entries.now) number }
{
    match entry_at(entries, number) {
        Some(entry) => asked_in(&entry.call),
        None => None,
    }
}

/// The object that the lookup with this number found.
pub fn hit_at(entries: &[Entry], number: u64) -> Option<u64>
    requires { IsLegal entries.now }
    ensures { result ≡ hit_at (newest_first entries.now) number }
{
    match entry_at(entries, number) {
        Some(entry) => hit_of(entry),
        None => None,
    }
}
