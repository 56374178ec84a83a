//! The last insertion or update of an object, and the purges after it.

ghost use Rattle.std.specs.Prelude.{◌≡◌, not, if◌then◌else◌};
ghost use Rattle.cache_types.specs.Entries.{newest_first};
ghost use Rattle.cache_types.specs.Objects.{hit_at, has_key, made_renewal, update_of, renewal_of, last_renewal, has_surrogate, renews, purges, is_softened, is_softened_by, is_purged};

use cache_log::{entry_at, hit_of, is_done, is_made};
use cache_types::{CacheCall, Entry, Octets, OctetsList, Terms};
use std::marker::Model;

/// An insertion or an update, which gives its object terms from its moment on.
#[derive(Drop)]
pub struct Renewal<'a> {
    pub object: u64,
    pub moment: u64,
    pub terms: &'a Terms,
}

impl<'a> Model for Renewal<'a> {
    ghost use Rattle.cache_types.specs.Objects.{Renewal};

    ghost Value = { Renewal };

    ghost view = { λ renewal. record { object = renewal.object; moment = renewal.moment; terms = renewal.terms.now } };
}

/// The object that the lookup with this number found.
pub fn hit_at(entries: &[Entry], number: u64) -> Option<u64>
    ensures { result ≡ hit_at (newest_first entries.now) number }
{
    match entry_at(entries, number) {
        Some(entry) => hit_of(entry),
        None => None,
    }
}

/// An update is of the object that its lookup found.
fn update_of<'a>(before: &[Entry], entry: &Entry, tx: u64, terms: &'a Terms) -> Option<Renewal<'a>>
    ensures { result ≡ update_of (newest_first before.now) entry.now tx terms.now }
{
    if !is_done(&entry.reply) {
        return None;
    }
    match hit_at(before, tx) {
        Some(object) => Some(Renewal {
            object,
            moment: entry.moment,
            terms,
        }),
        None => None,
    }
}

/// An insertion renews the object that it makes.
fn made_renewal<'a>(entry: &Entry, terms: &'a Terms) -> Option<Renewal<'a>>
    ensures { result ≡ made_renewal entry.now terms.now }
{
    if is_made(&entry.reply) {
        Some(Renewal {
            object: entry.number,
            moment: entry.moment,
            terms,
        })
    } else {
        None
    }
}

/// The renewal that an entry is, where it succeeded.
pub fn renewal_of<'a>(before: &[Entry], entry: &'a Entry) -> Option<Renewal<'a>>
    ensures { result ≡ renewal_of (newest_first before.now) entry.now }
{
    match &entry.call {
        CacheCall::Insert { writing, .. } => made_renewal(entry, &writing.terms),
        CacheCall::TxInsert { writing, .. } => made_renewal(entry, &writing.terms),
        CacheCall::TxUpdate { tx, terms } => update_of(before, entry, *tx, terms),
        _ => None,
    }
}

/// The last insertion or update of the object.
pub fn last_renewal(entries: &[Entry], object: u64) -> Option<Renewal<'_>>
    ensures { result ≡ last_renewal (newest_first entries.now) object }
{
    let mut last = None;
    for i in 0..entries.len() {
        if let Some(renewal) = renewal_of(&entries[..i], &entries[i]) {
            if renewal.object == object {
                last = Some(renewal);
            }
        }
    }
    last
}

/// The key stands among these.
fn has_key(keys: &OctetsList, key: &Octets) -> bool
    ensures { result ≡ has_key keys.now key.now }
{
    keys.items().iter().any(|other| key == other)
}

/// The terms of the object have this surrogate key.
fn has_surrogate(entries: &[Entry], object: u64, key: &Octets) -> bool
    ensures { result ≡ has_surrogate (newest_first entries.now) object key.now }
{
    match last_renewal(entries, object) {
        Some(renewal) => has_key(&renewal.terms.surrogates, key),
        None => false,
    }
}

fn is_as(softly: bool, soft: bool) -> bool
    ensures { result ≡ (if softly then soft else not soft) }
{
    if softly { soft } else { !soft }
}

/// The entry purges the object, softly or for good.
fn purges(softly: bool, before: &[Entry], object: u64, entry: &Entry) -> bool
    ensures { result ≡ purges softly (newest_first before.now) object entry.now }
{
    match &entry.call {
        CacheCall::Purge { key, soft } => is_as(softly, *soft)
            && has_surrogate(before, object, key),
        _ => false,
    }
}

/// The entry inserts or updates the object.
fn renews(before: &[Entry], object: u64, entry: &Entry) -> bool
    ensures { result ≡ renews (newest_first before.now) object entry.now }
{
    match renewal_of(before, entry) {
        Some(renewal) => renewal.object == object,
        None => false,
    }
}

/// A soft purge came after the object's last insertion or update.
pub fn is_softened(entries: &[Entry], object: u64) -> bool
    ensures { result ≡ is_softened (newest_first entries.now) object }
{
    let mut softened = false;
    for i in 0..entries.len() {
        softened = is_softened_by(&entries[..i], object, &entries[i], softened);
    }
    softened
}

fn is_softened_by(before: &[Entry], object: u64, entry: &Entry, softened: bool) -> bool
    ensures { result ≡ is_softened_by (newest_first before.now) object entry.now softened }
{
    !renews(before, object, entry) && (softened || purges(true, before, object, entry))
}

/// A hard purge came after the object's insertion.
pub fn is_purged(entries: &[Entry], object: u64) -> bool
    ensures { result ≡ is_purged (newest_first entries.now) object }
{
    let mut purged = false;
    for i in 0..entries.len() {
        if purges(false, &entries[..i], object, &entries[i]) {
            purged = true;
        }
    }
    purged
}
