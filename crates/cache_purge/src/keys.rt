//! The objects of each surrogate key.

ghost use Rattle.std.specs.Prelude.{◌≡◌, List, ℕ, true, OnOk};
ghost use Rattle.cache_types.specs.Objects.{has_key};
ghost use Rattle.cache_purge.specs.Keys.{named_at, is_named, IsMore};

use cache_types::{Copied, Octets};
use std::alloc::{AllocError, Global};
use std::collections::BTreeMap;

/// The objects of each surrogate key.
pub type KeyMap = BTreeMap<Octets, Vec<u64>>;

/// The objects that may have the key.
pub fn named<'a>(keys: &'a KeyMap, key: &Octets) -> &'a [u64]
    ensures { result.now ≡ named_at keys.now key.now }
{
    match keys.get(key) {
        Some(list) => list.as_slice(),
        None => &[],
    }
}

/// The object may have the key.
fn add(keys: &mut KeyMap, alloc: Global, key: &Octets, object: u64) -> Result<(), AllocError>
    ensures more { IsMore keys.old keys.new }
    ensures named { OnOk result (is_named object (named_at keys.new key.now) ≡ true) }
{
    if let Some(list) = keys.get_mut(key) {
        list.push(object)?;
        return Ok(());
    }
    let mut list = Vec::new(alloc);
    list.push(object)?;
    keys.insert(key.copy(alloc)?, list)?;
    Ok(())
}

/// The object may have these keys. Where memory runs out, some of them may name it.
pub fn add_all(
    keys: &mut KeyMap,
    alloc: Global,
    surrogates: &[Octets],
    object: u64,
) -> Result<(), AllocError>
    ensures more { IsMore keys.old keys.new }
    ensures named { OnOk result ((key : List ℕ) → has_key surrogates.now key ≡ true → is_named object (named_at keys.new key) ≡ true) }
{
    for i in 0..surrogates.len() {
        add(keys, alloc, &surrogates[i], object)?;
    }
    Ok(())
}
