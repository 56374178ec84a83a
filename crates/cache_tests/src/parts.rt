//! What an indexed cache is made of: the index, bodies in pieces, objects, surrogate keys.

use cache_bodies::Body;
use cache_index::Index;
use cache_objects::{extend, finish, leave_all, make, purge_all};
use cache_purge::{add_all, named};
use cache_slots::Slot;
use cache_types::{Items, Octets, Rule};
use std::alloc::AllocError;
use std::collections::BTreeMap;
use std::test::Fail;

fn octets(rt: &HostRuntime, text: &str) -> Result<Octets, AllocError> {
    Octets::of(rt.alloc(), text.as_bytes())
}

/// The rule of this one name, in lower case.
fn rule(rt: &HostRuntime, name: &str) -> Result<Rule, Fail> {
    Ok(vary_rules::read_rule(rt.alloc(), name.as_bytes()).map_err(|_| "no rule")?)
}

/// The slot of a key under the rule of this name, where no header has it.
fn slot(rt: &HostRuntime, key: &str, name: &str) -> Result<Slot, Fail> {
    let variant = Items::of(Vec::new(rt.alloc()));
    Ok(Slot::of(octets(rt, key)?, rule(rt, name)?, variant))
}

/// Insertions in their order: the key, the rule's name, the object.
const TOLD: [(&str, &str, u64); 4] = [("a", "x", 2), ("b", "x", 3), ("a", "y", 4), ("a", "x", 5)];

/// The newest object of each slot.
const OBJECTS: [(&str, &str, Option<u64>); 4] = [
    ("a", "x", Some(5)),
    ("a", "y", Some(4)),
    ("b", "x", Some(3)),
    ("b", "y", None),
];

#[test]
fn the_newest_counts(rt: HostRuntime) -> Result<(), Fail> {
    let mut index = Index::new(rt.alloc());
    for (key, name, object) in TOLD {
        index.insert(rt.alloc(), slot(&rt, key, name)?, object)?;
    }
    for (key, name, object) in OBJECTS {
        assert_eq!(rt; index.object(&slot(&rt, key, name)?), object);
    }
    let rules = index.rules(&octets(&rt, "a")?);
    assert_eq!(rt; rules.len(), 2);
    assert!(rt; rules[0] == rule(&rt, "y")?);
    Ok(())
}

/// Parts of `abcdefgh`, written in pieces of three, two and three bytes.
const PARTS: [(u64, u32, &str); 6] = [
    (0, 3, "abc"),
    (1, 1, "b"),
    (2, 4, "cdef"),
    (5, 9, "fgh"),
    (7, 1, "h"),
    (8, 1, ""),
];

#[test]
fn parts_of_a_body(rt: HostRuntime) -> Result<(), Fail> {
    let mut body = Body::new(rt.alloc());
    for piece in ["abc", "de", "fgh"] {
        let piece = octets(&rt, piece)?;
        let Some(_len) = body.len().checked_add(piece.bytes().len() as u64) else {
            continue;
        };
        body.push(piece)?;
    }
    assert_eq!(rt; body.len(), 8);
    for (place, most, bytes) in PARTS {
        let part = body.part(rt.alloc(), place, most)?;
        assert_eq!(rt; part.bytes(), bytes.as_bytes());
    }
    Ok(())
}

#[test]
fn objects_of_a_key(rt: HostRuntime) -> Result<(), Fail> {
    let mut objects = BTreeMap::new(rt.alloc());
    let mut keys = BTreeMap::new(rt.alloc());
    for object in [2, 3] {
        make(&mut objects, rt.alloc(), object, 1, None)?;
        add_all(&mut keys, rt.alloc(), &[octets(&rt, "k")?], object)?;
    }
    extend(&mut objects, 3, octets(&rt, "abc")?)?;
    finish(&mut objects, 3);
    let bearers = named(&keys, &octets(&rt, "k")?);
    assert_eq!(rt; bearers, [2, 3].as_slice());
    purge_all(&mut objects, bearers, true);
    leave_all(&mut objects, bearers);
    for (object, abandoned, len) in [(2, true, 0), (3, false, 3)] {
        let found = objects.get(&object).ok_or("no object")?;
        assert!(rt; found.softened && !found.purged);
        assert_eq!(rt; (found.abandoned, found.body.len()), (abandoned, len));
    }
    Ok(())
}
