//! A guest ends: the parts are told, and no memory is taken.

ghost use Rattle.std.specs.Prelude.{◌≡◌, ◌∷◌, List, true};
ghost use Rattle.cache_types.specs.declared.entries.Entry.{Entry};
ghost use Rattle.cache_types.specs.Entries.{is_end};
ghost use Rattle.cache_types.specs.Legal.{IsLegalPast};
ghost use Rattle.cache_core.specs.Knows.{Knows};

use crate::parts::Parts;
use cache_objects::{leave, leave_all};

/// The guest ends. It takes no memory.
pub fn tell_end(parts: &mut Parts, guest: u64)
    ensures { (past : List Entry) (e : Entry) → IsLegalPast (e ∷ past) → is_end e.call ≡ true → e.guest ≡ guest → Knows parts.old past → Knows parts.new (e ∷ past) }
{
    if let Some(named) = leave(&mut parts.guests, guest) {
        leave_all(&mut parts.objects, named.as_slice());
    }
}
