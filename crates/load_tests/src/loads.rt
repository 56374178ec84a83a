//! Loads: the line, and one history over both caches.

use cache_core::CoreCache;
use cache_plain::PlainCache;
use edge_load::{history_of, load_line, load_part};
use std::test::Fail;

/// The greatest number of entries and live guests.
const MOST: u64 = 1_000_000;

/// What a model in Python makes of the number 1.
const LINE: &[u8] = b"load 1 steps 50000 entries 11000 got 2000 bytes 123904\n";

#[test]
fn a_load_is_told_twice_in_one_line(rt: HostRuntime) -> Result<(), Fail> {
    let alloc = rt.alloc();
    for _ in 0..2 {
        let line = load_line(alloc, CoreCache::new(alloc, MOST), 1)?;
        assert!(rt; line.bytes() == LINE);
    }
    Ok(())
}

#[test]
fn the_beginning_of_a_load_has_one_history(rt: HostRuntime) -> Result<(), Fail> {
    let alloc = rt.alloc();
    let run = load_part(alloc, 1, 2_000)?;
    let core = history_of(alloc, CoreCache::new(alloc, MOST), &run)?;
    let plain = history_of(alloc, PlainCache::new(alloc, MOST), &run)?;
    assert!(rt; core.entries().len() > 2_000);
    assert!(rt; format!(in alloc; "{core:?}")? == format!(in alloc; "{plain:?}")?);
    Ok(())
}
