//! The newest transaction of each goal.

ghost use Rattle.std.specs.Prelude.{◌≡◌, List, [], ◌∷◌, OnOk, OnErr, option_map};
ghost use Rattle.cache_types.specs.Transactions.{Transaction};
ghost use Rattle.cache_waiters.specs.Holding.{newest_with};
ghost use Rattle.cache_waiters.specs.Stands.{holder_of};

use cache_slots::Slot;
use std::alloc::{AllocError, Global};
use std::collections::BTreeMap;

/// A transaction by its number, which is its lookup's, and its guest.
#[derive(Debug, Drop, Clone, Copy)]
pub struct Holder {
    pub number: u64,
    pub guest: u64,
}

/// The newest transaction of each goal.
#[derive(Drop)]
pub struct Goals {
    newest: BTreeMap<Slot, Holder>,
}

impl Goals {
    ghost use Rattle.cache_waiters.specs.Stands.{Stands};

    /// Goals of no transaction.
    pub fn new(alloc: Global) -> Goals
        ensures { Stands result [] }
    {
        Goals {
            newest: BTreeMap::new(alloc),
        }
    }

    /// The newest transaction that had this goal, open or not.
    pub fn newest(&self, goal: &Slot) -> Option<Holder>
        ensures { (told : List Transaction) → Stands self.now told → result ≡ option_map holder_of (newest_with told goal.now) }
    {
        self.newest.get(goal).copied()
    }

    /// Tells a transaction with its goal. Where memory runs out, nothing was told.
    pub fn tell(&mut self, goal: Slot, holder: Holder) -> Result<(), AllocError>
        ensures told { OnOk result ((transaction : Transaction) (told : List Transaction) → transaction.goal ≡ goal → holder_of transaction ≡ holder → Stands self.old told → Stands self.new (transaction ∷ told)) }
        ensures unchanged { OnErr result ((told : List Transaction) → Stands self.old told → Stands self.new told) }
    {
        self.newest.insert(goal, holder)?;
        Ok(())
    }
}
