//! A guest begins: the parts are told.

ghost use Rattle.std.specs.Prelude.{◌≡◌, ◌∷◌, List, true, OnOk, OnErr};
ghost use Rattle.cache_types.specs.declared.entries.Entry.{Entry};
ghost use Rattle.cache_types.specs.Entries.{is_begin};
ghost use Rattle.cache_types.specs.Legal.{IsLegalPast};
ghost use Rattle.cache_core.specs.Knows.{Knows};

use crate::parts::Parts;
use cache_objects::begin;
use std::alloc::{AllocError, Global};

/// The guest of this number begins.
pub fn tell_begin(parts: &mut Parts, alloc: Global, guest: u64) -> Result<(), AllocError>
    ensures told { OnOk result ((past : List Entry) (e : Entry) → IsLegalPast (e ∷ past) → is_begin e.call ≡ true → e.number ≡ guest → Knows parts.old past → Knows parts.new (e ∷ past)) }
    ensures kept { OnErr result ((past : List Entry) → Knows parts.old past → Knows parts.new past) }
{
    begin(&mut parts.guests, alloc, guest)
}
