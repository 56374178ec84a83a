//! What is known beside the entries.

use cache_index::Index;
use cache_objects::{GuestMap, ObjectMap};
use cache_purge::KeyMap;

/// What an indexed cache knows beside its entries. It may hold more than they say; what it holds of
/// an object that they made is exact.
#[derive(Drop)]
pub struct Parts {
    pub index: Index,
    pub objects: ObjectMap,
    pub guests: GuestMap,
    pub bearers: KeyMap,
}
