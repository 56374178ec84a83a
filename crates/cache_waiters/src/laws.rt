//! What goals rest on.

ghost use Rattle.std.specs.Prelude.{◌≡◌, List};
ghost use Rattle.cache_types.specs.declared.entries.Entry.{Entry};
ghost use Rattle.cache_types.specs.Legal.{IsLegalPast};
ghost use Rattle.cache_types.specs.Slots.{Slot};
ghost use Rattle.cache_types.specs.Transactions.{is_held};
ghost use Rattle.cache_waiters.specs.Holding.{held_by};

/// A goal is held exactly where the newest transaction that ever had it is open.
pub fn newest_holds()
    ensures { (past : List Entry) → IsLegalPast past → (slot : Slot) → is_held past slot ≡ held_by past slot }
{}
