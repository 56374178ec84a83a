//! What a transactional lookup is told.

ghost use Rattle.std.specs.Prelude.{◌≡◌, ◌&&◌, false, IfOk};
ghost use Rattle.cache_types.specs.Answer.{tx_lookup_answer};
ghost use Rattle.cache_types.specs.Entries.{newest_first};
ghost use Rattle.cache_types.specs.Found.{age_at, is_fresh};
ghost use Rattle.cache_types.specs.Legal.{IsLegal};
ghost use Rattle.cache_types.specs.Transactions.{goal_of, is_held};
ghost use Rattle.cache_core.specs.Hits.{tx_from, tx_by, tx_none};
ghost use Rattle.cache_core.specs.Knows.{Knows};
ghost use Rattle.cache_core.specs.Object.{Object, Holds, object_at};
ghost use Rattle.cache_core.specs.Waits.{Awaits};

use crate::finding::found;
use crate::hits::got_from;
use crate::holding::is_goal_held;
use crate::parts::Parts;
use crate::terms::{Renewal, renewal_at};
use crate::waits::Waits;
use cache_objects::Standing;
use cache_types::{Entry, Fields, Octets, Reply, is_fresh_at, is_usable_at};
use std::alloc::{AllocError, Global};

/// The age at a moment, in nanoseconds.
fn age_at(renewal: &Renewal<'_>, moment: u64) -> u64
    ensures { result ≡ age_at renewal.now moment }
{
    renewal
        .terms
        .initial_age
        .saturating_add(moment.saturating_sub(renewal.moment))
}

fn is_fresh(moment: u64, standing: &Standing, renewal: &Renewal<'_>) -> bool
    ensures { result ≡ is_fresh renewal.now.terms (age_at renewal.now moment) standing.now.softened }
{
    is_fresh_at(renewal.terms, age_at(renewal, moment), standing.softened)
}

/// What is fresh is told; else, while another transaction has the goal, what is usable is told, and
/// nothing else.
fn tx_from(
    alloc: Global,
    held: bool,
    moment: u64,
    object: u64,
    standing: &Standing,
    renewal: &Renewal<'_>,
) -> Result<Reply, AllocError>
    ensures { IfOk result (λ reply. reply ≡ tx_from held moment object standing.now renewal.now) }
{
    if is_fresh(moment, standing, renewal) {
        return got_from(alloc, false, moment, object, standing, renewal);
    }
    if !held {
        return got_from(alloc, true, moment, object, standing, renewal);
    }
    if is_usable_at(renewal.terms, age_at(renewal, moment)) {
        got_from(alloc, false, moment, object, standing, renewal)
    } else {
        Ok(Reply::NotYet)
    }
}

/// What such a lookup is told of an object that it found.
fn tx_hit(
    alloc: Global,
    parts: &Parts,
    waits: &Waits,
    entries: &[Entry],
    moment: u64,
    object: u64,
    key: &Octets,
    headers: &Fields,
) -> Result<Reply, AllocError>
    requires legal { IsLegal entries.now }
    requires knows { Knows parts.now (newest_first entries.now) }
    requires awaits { Awaits waits.now (newest_first entries.now) }
    ensures { IfOk result (λ reply. Holds (λ (x : Object). reply ≡ tx_by (is_held (newest_first entries.now) (goal_of (newest_first entries.now) key.now headers.now)) moment object x) (object_at (newest_first entries.now) object)) }
{
    // What a lookup found is held, with its terms.
    let Some(standing) = parts.objects.get(&object) else {
        return Err(AllocError);
    };
    let Some(renewal) = renewal_at(entries, object, standing.renewed) else {
        return Err(AllocError);
    };
    let fresh = is_fresh(moment, standing, &renewal);
    let held = is_goal_held(alloc, parts, waits, fresh, key, headers)?;
    tx_from(alloc, held, moment, object, standing, &renewal)
}

fn tx_none(held: bool) -> Reply
    ensures { result ≡ tx_none held }
{
    if held {
        Reply::NotYet
    } else {
        Reply::Got { bits: 8, hit: None }
    }
}

/// The reply to a transactional lookup.
pub fn tx_lookup(
    alloc: Global,
    parts: &Parts,
    waits: &Waits,
    entries: &[Entry],
    moment: u64,
    key: &Octets,
    headers: &Fields,
) -> Result<Reply, AllocError>
    requires legal { IsLegal entries.now }
    requires knows { Knows parts.now (newest_first entries.now) }
    requires awaits { Awaits waits.now (newest_first entries.now) }
    ensures { IfOk result (λ reply. reply ≡ tx_lookup_answer (newest_first entries.now) moment key.now headers.now) }
{
    match found(alloc, parts, key, headers)? {
        Some(object) => tx_hit(alloc, parts, waits, entries, moment, object, key, headers),
        None => Ok(tx_none(is_goal_held(alloc, parts, waits, false, key, headers)?)),
    }
}
