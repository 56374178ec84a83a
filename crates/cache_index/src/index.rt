//! The index: two ordered maps, told each insertion.

ghost use Rattle.std.specs.Prelude.{◌≡◌, ℕ, List, [], ◌∷◌, OnOk, OnErr, reverse};
ghost use Rattle.cache_types.specs.Slots.{Slot};
ghost use Rattle.cache_types.specs.Objects.{Insertion, slot_of};
ghost use Rattle.cache_index.specs.Told.{rules_told, object_told};

use crate::rules::{RuleMap, make_room, renew};
use cache_slots::Slot;
use cache_types::{Copied, Octets, Rule};
use std::alloc::{AllocError, Global};
use std::collections::BTreeMap;

/// The rules of each key and the newest object of each slot.
#[derive(Drop)]
pub struct Index {
    rules: RuleMap,
    objects: BTreeMap<Slot, u64>,
}

impl Index {
    ghost use Rattle.cache_index.specs.Stands.{Stands};

    /// An index that was told nothing.
    pub fn new(alloc: Global) -> Index
        ensures { Stands result [] }
    {
        Index {
            rules: BTreeMap::new(alloc),
            objects: BTreeMap::new(alloc),
        }
    }

    /// The rules of the key, the newest last.
    pub fn rules(&self, key: &Octets) -> &[Rule]
        ensures { (told : List Insertion) → Stands self.now told → reverse result.now ≡ rules_told told key.now }
    {
        match self.rules.get(key) {
            Some(rules) => rules.as_slice(),
            None => &[],
        }
    }

    /// The newest object of the slot.
    pub fn object(&self, slot: &Slot) -> Option<u64>
        ensures { (told : List Insertion) → Stands self.now told → result ≡ object_told told slot.now }
    {
        self.objects.get(slot).copied()
    }

    /// Tells the insertion of an object in a slot. Where memory runs out, nothing was told.
    pub fn insert(&mut self, alloc: Global, slot: Slot, object: u64) -> Result<(), AllocError>
        ensures told { OnOk result ((made : Insertion) (told : List Insertion) → made.object ≡ object → slot_of made ≡ slot → Stands self.old told → Stands self.new (made ∷ told)) }
        ensures unchanged { OnErr result ((told : List Insertion) → Stands self.old told → Stands self.new told) }
    {
        let key = slot.key().copy(alloc)?;
        let rule = slot.rule().copy(alloc)?;
        make_room(&mut self.rules, alloc, &key)?;
        self.objects.insert(slot, object)?;
        renew(&mut self.rules, &key, rule);
        Ok(())
    }
}
