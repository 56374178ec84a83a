//! Four rounds of 200,000 calls.

ghost use Rattle.std.specs.Prelude.{◌≤◌, OnOk};
ghost use Rattle.core_tests.specs.Asked.{HasGuest};

use crate::asked::{ask, begin, end};
use crate::calls::{ROUND, Round, call_of};
use cache_core::CoreCache;
use cache_types::{OneCache, Reply, Stepped};
use std::alloc::Global;
use std::test::Fail;

/// The answer is the one that is wanted of this call.
fn is_wanted(round: Round, k: u64, told: &Stepped) -> bool
    requires { k ≤ 200000 }
{
    match (round, &told.reply) {
        (Round::Insert, Reply::Made) => told.number == 1 + k,
        (
            Round::Lookup,
            Reply::Got {
                bits: 3,
                hit: Some(hit),
            },
        ) => { told.number == ROUND + 1 + k && hit.object == k + 1 }
        (Round::TxLookup, Reply::Got { bits: 8, hit: None }) => told.number == 2 * ROUND + 1 + k,
        (Round::Purge, Reply::Done) => told.number == 3 * ROUND + 1 + k,
        _ => false,
    }
}

/// How many calls of a round got the answer that is wanted.
fn answered<S: OneCache>(
    alloc: Global,
    cache: &mut S,
    guest: u64,
    round: Round,
) -> Result<u64, Fail>
    requires { HasGuest (S.history cache.old) guest }
    ensures { OnOk result (HasGuest (S.history cache.new) guest) }
{
    let mut wanted = 0;
    for k in 1..ROUND + 1 {
        let call = call_of(alloc, round, k)?;
        let told = ask(cache, guest, &call).map_err(|_| "no answer")?;
        if is_wanted(round, k, &told) {
            wanted += 1;
        }
    }
    Ok(wanted)
}

#[test]
fn a_million_entries(rt: HostRuntime) -> Result<(), Fail> {
    let alloc = rt.alloc();
    let mut cache = CoreCache::new(alloc, 1_000_000);
    let guest = begin(&mut cache).map_err(|_| "no begin")?;
    assert_eq!(rt; answered(alloc, &mut cache, guest, Round::Insert)?, ROUND);
    assert_eq!(rt; answered(alloc, &mut cache, guest, Round::Lookup)?, ROUND);
    assert_eq!(rt; answered(alloc, &mut cache, guest, Round::TxLookup)?, ROUND);
    assert_eq!(rt; answered(alloc, &mut cache, guest, Round::Purge)?, ROUND);
    let told = end(&mut cache, guest).map_err(|_| "no end")?;
    assert_eq!(rt; told.number, 800_002);
    Ok(())
}
