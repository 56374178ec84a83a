//! The terms of an object, read in the entry that gave them.

ghost use Rattle.std.specs.Prelude.{◌≡◌};
ghost use Rattle.cache_types.specs.Entries.{newest_first, entry_at};
ghost use Rattle.cache_types.specs.Legal.{IsLegal};
ghost use Rattle.cache_types.specs.Objects.{has_key};
ghost use Rattle.cache_core.specs.Knows.{IsHeld};
ghost use Rattle.cache_core.specs.Object.{Object, Each, Holds, object_at};
ghost use Rattle.cache_core.specs.Terms.{terms_in, renewal_in};

use crate::entries::entry_at;
use cache_objects::ObjectMap;
use cache_types::{CacheCall, Entry, Octets, OctetsList, Terms};
use std::marker::Model;

/// An insertion or an update, which gives its object terms from its moment on, in nanoseconds.
#[derive(Drop)]
pub struct Renewal<'a> {
    pub object: u64,
    pub moment: u64,
    pub terms: &'a Terms,
}

impl<'a> Model for Renewal<'a> {
    ghost use Rattle.cache_types.specs.Objects.{Renewal};

    ghost Value = { Renewal };

    ghost view = { λ renewal. record { object = renewal.object; moment = renewal.moment; terms = renewal.terms.now } };
}

/// The terms of the object, where the entry of this number gave them.
pub fn renewal_at(entries: &[Entry], object: u64, number: u64) -> Option<Renewal<'_>>
    requires { IsLegal entries.now }
    ensures { result ≡ renewal_in object (entry_at (newest_first entries.now) number) }
{
    let entry = entry_at(entries, number)?;
    let moment = entry.moment;
    match &entry.call {
        CacheCall::Insert { writing, .. } => Some(Renewal {
            object,
            moment,
            terms: &writing.terms,
        }),
        CacheCall::TxInsert { writing, .. } => Some(Renewal {
            object,
            moment,
            terms: &writing.terms,
        }),
        CacheCall::TxUpdate { terms, .. } => Some(Renewal {
            object,
            moment,
            terms,
        }),
        _ => None,
    }
}

/// The key stands among these.
pub fn has_key(keys: &OctetsList, key: &Octets) -> bool
    ensures { result ≡ has_key keys.now key.now }
{
    keys.items().iter().any(|other| key == other)
}

/// The object's terms have the surrogate key now.
pub fn bears(objects: &ObjectMap, entries: &[Entry], object: u64, key: &Octets) -> bool
    requires { IsLegal entries.now }
    ensures { Each (IsHeld objects.now (newest_first entries.now)) (newest_first entries.now) → Holds (λ (x : Object). result ≡ has_key x.renewal.terms.surrogates key.now) (object_at (newest_first entries.now) object) }
{
    match objects.get(&object) {
        Some(standing) => match renewal_at(entries, object, standing.renewed) {
            Some(renewal) => has_key(&renewal.terms.surrogates, key),
            None => false,
        },
        None => false,
    }
}
