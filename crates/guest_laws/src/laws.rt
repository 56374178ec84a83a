//! Laws on the entries of one guest.
ghost use Rattle.std.specs.Prelude.{◌≡◌, ℕ, List, [], IsTrue};
ghost use mathlib.Core.List.{IsPrefix};
ghost use Rattle.cache_types.specs.declared.entries.Entry.{Entry};
ghost use Rattle.cache_types.specs.Entries.{newest_first, has_ended};
ghost use Rattle.cache_types.specs.Legal.{IsLegal};
ghost use Rattle.cache_hub.specs.Calls.{own_of, IsOpener};
ghost use Rattle.cache_hub.specs.Hub.{AreApart};

/// What was seen of a guest that had ended by then is all of it: it has no later entries.
pub fn ended_guest_is_whole()
    ensures { (seen history : List Entry) (guest : ℕ) → IsLegal history → IsPrefix seen history → IsTrue (has_ended (newest_first seen) guest) → own_of guest history ≡ own_of guest seen }
{}

/// Guest 0 has no entries.
pub fn guest_zero_has_none()
    ensures { (history : List Entry) → IsLegal history → own_of 0 history ≡ [] }
{}

/// No guest began through both of two passes that have no entry in common.
pub fn guests_of_two_differ()
    ensures { (one other : List (ℕ × Entry)) (guest : ℕ) → AreApart one other → IsOpener one guest → ¬ IsOpener other guest }
{}
