//! A slot that owns what it says, and its order.

ghost use Rattle.std.specs.Prelude.{◌≡◌, Some, refl};
ghost use Rattle.std.specs.Cmp.{partial_equiv_from_equiv, partial_order_from_agreeing_total};
ghost use Rattle.cache_types.specs.Slots.{same_slot};
ghost use Rattle.cache_slots.specs.SlotOrder.{slot_cmp, slots_equiv, slots_total, slots_tie};

use crate::variants::variants_cmp;
use cache_types::{Octets, Rule, Variant};
use std::cmp::Ordering;
use std::marker::Model;

/// Where an object stands: a key, a rule, and the values of the rule's headers.
#[derive(Debug, Drop)]
pub struct Slot {
    key: Octets,
    rule: Rule,
    variant: Variant,
}

impl Model for Slot {
    ghost Value = { Rattle.cache_types.specs.Slots.Slot };

    ghost view = { λ slot. record { key = slot.key; rule = slot.rule; variant = slot.variant } };
}

impl Slot {
    /// The slot of these three.
    pub fn of(key: Octets, rule: Rule, variant: Variant) -> Slot
        ensures key { result.key ≡ key }
        ensures rule { result.rule ≡ rule }
        ensures variant { result.variant ≡ variant }
    {
        Slot { key, rule, variant }
    }

    pub fn key(&self) -> &Octets
        ensures { result.now ≡ self.now.key }
    {
        &self.key
    }

    pub fn rule(&self) -> &Rule
        ensures { result.now ≡ self.now.rule }
    {
        &self.rule
    }
}

impl PartialEq for Slot {
    ghost eq = { same_slot };

    ghost laws = { partial_equiv_from_equiv slots_equiv };

    fn eq(&self, other: &Slot) -> bool {
        self.key == other.key && self.rule == other.rule && self.variant == other.variant
    }
}

impl Eq for Slot {
    ghost laws = { slots_equiv };
}

impl PartialOrd for Slot {
    ghost partial_cmp = { λ x y. Some (slot_cmp x y) };

    ghost laws = { partial_order_from_agreeing_total slot_cmp slots_total (λ x y. refl) slots_tie };

    fn partial_cmp(&self, other: &Slot) -> Option<Ordering> {
        Some(self.cmp(other))
    }
}

/// By the key, then by the rule, then by the variant.
impl Ord for Slot {
    ghost cmp = { slot_cmp };

    ghost total = { slots_total };

    ghost matches_partial_cmp = { λ x y. refl };

    ghost matches_eq = { slots_tie };

    fn cmp(&self, other: &Slot) -> Ordering {
        self.key
            .cmp(&other.key)
            .then(self.rule.items().cmp(other.rule.items()))
            .then(variants_cmp(self.variant.items(), other.variant.items()))
    }
}
