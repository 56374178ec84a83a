//! An object is made: the parts are told.

ghost use Rattle.std.specs.Prelude.{◌≡◌, ◌∷◌, List, false, OnOk, OnErr};
ghost use Rattle.cache_types.specs.declared.calls.Terms.{Terms};
ghost use Rattle.cache_types.specs.declared.entries.Entry.{Entry};
ghost use Rattle.cache_types.specs.Entries.{is_begin, is_end, next_number};
ghost use Rattle.cache_types.specs.Legal.{IsLegalPast};
ghost use Rattle.cache_types.specs.Objects.{Insertion, renewal_for, slot_of};
ghost use Rattle.cache_core.specs.Knows.{Knows};
ghost use Rattle.cache_core.specs.News.{Made, news_of};

use crate::parts::Parts;
use cache_objects::{add, make, make_room};
use cache_purge::add_all;
use cache_slots::Slot;
use cache_types::Octets;
use std::alloc::{AllocError, Global};

/// The insertion of the next entry's object in a slot. What comes before the index's insertion
/// changes no answer, and what follows it can't fail.
pub fn tell_made(
    parts: &mut Parts,
    alloc: Global,
    number: u64,
    guest: u64,
    slot: Slot,
    declared: Option<u64>,
    surrogates: &[Octets],
) -> Result<(), AllocError>
    ensures told { OnOk result ((past : List Entry) (e : Entry) (made : Insertion) (terms : Terms) → IsLegalPast (e ∷ past) → is_begin e.call ≡ false → is_end e.call ≡ false → news_of past e ≡ Made made (renewal_for e terms e.number) → e.number ≡ number → e.guest ≡ guest → slot_of made ≡ slot → made.writing.length ≡ declared → terms.surrogates ≡ surrogates.now → Knows parts.old past → Knows parts.new (e ∷ past)) }
    ensures kept { OnErr result ((past : List Entry) → IsLegalPast past → number ≡ next_number past → Knows parts.old past → Knows parts.new past) }
{
    add_all(&mut parts.bearers, alloc, surrogates, number)?;
    make(&mut parts.objects, alloc, number, guest, declared)?;
    make_room(&mut parts.guests, guest)?;
    parts.index.insert(alloc, slot, number)?;
    add(&mut parts.guests, guest, number);
    Ok(())
}
