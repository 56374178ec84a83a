//! Several objects: a purge names them, or their guest ends.

ghost use Rattle.std.specs.Prelude.{◌≡◌, ℕ, [], ◌∷◌};
ghost use Rattle.cache_objects.specs.Standings.{standing_at, purged, left, changed_at};

use crate::one::ObjectMap;

/// Purges the object, softly or for good, where it is known.
fn purge(objects: &mut ObjectMap, object: u64, soft: bool)
    ensures { (q : ℕ) → standing_at objects.new q ≡ changed_at (purged soft) (object ∷ []) q (standing_at objects.old q) }
{
    if let Some(found) = objects.get_mut(&object) {
        if soft {
            found.softened = true;
        } else {
            found.purged = true;
        }
    }
}

/// Purges these objects.
pub fn purge_all(objects: &mut ObjectMap, named: &[u64], soft: bool)
    ensures { (q : ℕ) → standing_at objects.new q ≡ changed_at (purged soft) named.now q (standing_at objects.old q) }
{
    for i in 0..named.len() {
        purge(objects, named[i], soft);
    }
}

/// The object's guest ends: what isn't whole never becomes so.
fn leave(objects: &mut ObjectMap, object: u64)
    ensures { (q : ℕ) → standing_at objects.new q ≡ changed_at left (object ∷ []) q (standing_at objects.old q) }
{
    if let Some(found) = objects.get_mut(&object) {
        if !found.finished {
            found.abandoned = true;
        }
    }
}

/// The guest of these objects ends. It takes no memory.
pub fn leave_all(objects: &mut ObjectMap, named: &[u64])
    ensures { (q : ℕ) → standing_at objects.new q ≡ changed_at left named.now q (standing_at objects.old q) }
{
    for i in 0..named.len() {
        leave(objects, named[i]);
    }
}
