//! What a lookup is told.

ghost use Rattle.std.specs.Prelude.{◌≡◌, IfOk};
ghost use Rattle.cache_types.specs.Answer.{finding, lookup_reply};
ghost use Rattle.cache_types.specs.Entries.{newest_first};
ghost use Rattle.cache_types.specs.Legal.{IsLegal};
ghost use Rattle.cache_core.specs.Hits.{got_by, got_from, length_held};
ghost use Rattle.cache_core.specs.Knows.{Knows};
ghost use Rattle.cache_core.specs.Object.{Object, Holds, object_at};

use crate::finding::found;
use crate::parts::Parts;
use crate::terms::{Renewal, renewal_at};
use cache_objects::Standing;
use cache_types::{Copied, Entry, Fields, Hit, Octets, Reply, bits_of};
use std::alloc::{AllocError, Global};

/// The declared length in bytes, else what was written of a finished object, else unknown.
fn length_held(standing: &Standing) -> Option<u64>
    ensures { result ≡ length_held standing.now.declared standing.now.finished standing.now.body }
{
    match standing.declared {
        Some(declared) => Some(declared),
        None => {
            if standing.finished {
                Some(standing.body.len())
            } else {
                None
            }
        }
    }
}

/// The state of an object, and what is told of it; `told` says that the guest must insert or
/// update.
pub fn got_from(
    alloc: Global,
    told: bool,
    moment: u64,
    object: u64,
    standing: &Standing,
    renewal: &Renewal<'_>,
) -> Result<Reply, AllocError>
    ensures { IfOk result (λ reply. reply ≡ got_from told moment object standing.now renewal.now) }
{
    let passed = moment.saturating_sub(renewal.moment);
    let age = renewal.terms.initial_age.saturating_add(passed);
    let state = bits_of(renewal.terms, age, standing.softened);
    let bits = if told { state + 8 } else { state };
    let length = length_held(standing);
    let metadata = renewal.terms.metadata.copy(alloc)?;
    Ok(Reply::Got {
        bits,
        hit: Some(Hit {
            object,
            age,
            max_age: renewal.terms.max_age,
            stale: renewal.terms.stale,
            length,
            metadata,
        }),
    })
}

/// What is told of an object that a lookup found.
fn got(
    alloc: Global,
    parts: &Parts,
    entries: &[Entry],
    told: bool,
    moment: u64,
    object: u64,
) -> Result<Reply, AllocError>
    requires legal { IsLegal entries.now }
    requires knows { Knows parts.now (newest_first entries.now) }
    ensures { IfOk result (λ reply. Holds (λ (x : Object). reply ≡ got_by told moment object x) (object_at (newest_first entries.now) object)) }
{
    // What a lookup found is held, with its terms.
    let Some(standing) = parts.objects.get(&object) else {
        return Err(AllocError);
    };
    let Some(renewal) = renewal_at(entries, object, standing.renewed) else {
        return Err(AllocError);
    };
    got_from(alloc, told, moment, object, standing, &renewal)
}

/// The reply to a lookup that waits for nobody.
pub fn lookup(
    alloc: Global,
    parts: &Parts,
    entries: &[Entry],
    moment: u64,
    key: &Octets,
    headers: &Fields,
) -> Result<Reply, AllocError>
    requires legal { IsLegal entries.now }
    requires knows { Knows parts.now (newest_first entries.now) }
    ensures { IfOk result (λ reply. reply ≡ lookup_reply (newest_first entries.now) (finding (newest_first entries.now) moment key.now headers.now)) }
{
    match found(alloc, parts, key, headers)? {
        Some(object) => got(alloc, parts, entries, false, moment, object),
        None => Ok(Reply::Got { bits: 0, hit: None }),
    }
}
