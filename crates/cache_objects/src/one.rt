//! One object: it is made, renewed, written, finished, abandoned.

ghost use Rattle.std.specs.Prelude.{◌≡◌, ℕ, [], ◌∷◌, OnOk, OnErr, cond, Some};
ghost use Rattle.std.specs.BTreeMap.{is_at};
ghost use Rattle.std.specs.Ordering.{nat_cmp};
ghost use Rattle.cache_objects.specs.Standings.{standing_at, fresh, finished, abandoned, renewed, extended, changed_at};

use crate::standing::Standing;
use cache_bodies::Body;
use cache_types::Octets;
use std::alloc::{AllocError, Global};
use std::collections::BTreeMap;

/// What is known of each object.
pub type ObjectMap = BTreeMap<u64, Standing>;

/// A new object of a guest, made by the entry of this number, with its declared length in bytes.
pub fn make(
    objects: &mut ObjectMap,
    alloc: Global,
    number: u64,
    guest: u64,
    declared: Option<u64>,
) -> Result<(), AllocError>
    ensures made { OnOk result ((q : ℕ) → standing_at objects.new q ≡ cond (is_at (nat_cmp number) q) (Some (fresh number guest declared)) (standing_at objects.old q)) }
    ensures unchanged { OnErr result ((q : ℕ) → standing_at objects.new q ≡ standing_at objects.old q) }
{
    let standing = Standing {
        guest,
        declared,
        renewed: number,
        softened: false,
        purged: false,
        finished: false,
        abandoned: false,
        body: Body::new(alloc),
    };
    objects.insert(number, standing)?;
    Ok(())
}

/// The object is whole, where it is known.
pub fn finish(objects: &mut ObjectMap, object: u64)
    ensures { (q : ℕ) → standing_at objects.new q ≡ changed_at finished (object ∷ []) q (standing_at objects.old q) }
{
    if let Some(found) = objects.get_mut(&object) {
        found.finished = true;
    }
}

/// The object never becomes whole.
pub fn abandon(objects: &mut ObjectMap, object: u64)
    ensures { (q : ℕ) → standing_at objects.new q ≡ changed_at abandoned (object ∷ []) q (standing_at objects.old q) }
{
    if let Some(found) = objects.get_mut(&object) {
        found.abandoned = true;
    }
}

/// The terms of the object stand in this entry from now on.
pub fn renew(objects: &mut ObjectMap, object: u64, number: u64)
    ensures { (q : ℕ) → standing_at objects.new q ≡ changed_at (renewed number) (object ∷ []) q (standing_at objects.old q) }
{
    if let Some(found) = objects.get_mut(&object) {
        found.renewed = number;
        found.softened = false;
    }
}

/// One more piece of the object, shared with whoever has it.
pub fn extend(objects: &mut ObjectMap, object: u64, octets: Octets) -> Result<(), AllocError>
    ensures extended { OnOk result ((q : ℕ) → standing_at objects.new q ≡ changed_at (extended octets) (object ∷ []) q (standing_at objects.old q)) }
    ensures unchanged { OnErr result ((q : ℕ) → standing_at objects.new q ≡ standing_at objects.old q) }
{
    if let Some(found) = objects.get_mut(&object) {
        // No memory holds an object of 2^64 bytes.
        let Some(_len) = found.body.len().checked_add(octets.bytes().len() as u64) else {
            return Err(AllocError);
        };
        return found.body.push(octets);
    }
    Ok(())
}
