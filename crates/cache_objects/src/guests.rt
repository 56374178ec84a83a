//! The live guests, and the objects that each of them made.

ghost use Rattle.std.specs.Prelude.{◌≡◌, ◌<◌, ◌++◌, ℕ, [], ◌∷◌, OnOk, OnErr, Some, None, option_map, cond, length, vec_capacity, ◌==◌, List, if◌then◌else◌};
ghost use Rattle.std.specs.Global.{Vec};
ghost use Rattle.cache_objects.specs.Guests.{list_at, HasRoomFor};

use std::alloc::{AllocError, Global};
use std::collections::BTreeMap;

/// The objects of each live guest.
pub type GuestMap = BTreeMap<u64, Vec<u64>>;

/// The guest begins.
pub fn begin(guests: &mut GuestMap, alloc: Global, guest: u64) -> Result<(), AllocError>
    ensures begun { OnOk result ((q : ℕ) → list_at guests.new q ≡ (if guest == q then Some [] else list_at guests.old q)) }
    ensures unchanged { OnErr result ((q : ℕ) → list_at guests.new q ≡ list_at guests.old q) }
{
    guests.insert(guest, Vec::new(alloc))?;
    Ok(())
}

/// Makes room for one more object of the guest.
pub fn make_room(guests: &mut GuestMap, guest: u64) -> Result<(), AllocError>
    ensures same { (q : ℕ) → list_at guests.new q ≡ list_at guests.old q }
    ensures room { OnOk result (HasRoomFor guests.new guest) }
{
    if let Some(list) = guests.get_mut(&guest) {
        return list.reserve(1);
    }
    Ok(())
}

/// One more object of the guest.
pub fn add(guests: &mut GuestMap, guest: u64, object: u64)
    requires { HasRoomFor guests.old guest }
    ensures { (q : ℕ) → list_at guests.new q ≡ (if guest == q then option_map (λ (list : List ℕ). list ++ object ∷ []) (list_at guests.old q) else list_at guests.old q) }
{
    if let Some(list) = guests.get_mut(&guest) {
        list.push_reserved(object);
    }
}

/// The guest ends; these are its objects.
pub fn leave(guests: &mut GuestMap, guest: u64) -> Option<Vec<u64>>
    ensures named { option_map (λ (v : Vec ℕ). v.items) result ≡ list_at guests.old guest }
    ensures left { (q : ℕ) → list_at guests.new q ≡ (if guest == q then None else list_at guests.old q) }
{
    guests.remove(&guest)
}
