//! Guests on eight threads over one cache, again and again.
ghost use Rattle.std.specs.Prelude.{◌≡◌, ◌<◌, ◌≤◌, IfOk};
ghost use Rattle.std.specs.Thread.{IsSync};
ghost use Rattle.turnstile.specs.Pass.{IsOf, IsSamePass};
ghost use Rattle.cache_hub.specs.Calls.{HasGuest};
ghost use Rattle.hub_tests.specs.Asked.{MayMake};

use crate::asked::*;
use cache_hub::{Hub, HubPass};
use cache_plain::PlainCache;
use cache_types::*;
use edge_outside::MemClock;
use std::alloc::Global;
use std::sync::Wait;
use std::test::Fail;
use std::thread;
use std::thread::Threads;
use std::time::Clock;

const WORKERS: u64 = 8;

/// How many caches the workers share, one after another: an answer of the plain cache takes the longer the more entries
/// it has, so that one cache for all calls would take hours.
const CACHES: u64 = 200;

/// A guest makes five calls a round, so that each worker makes ten thousand.
const ROUNDS: u64 = 10;

const END: u64 = 5 * ROUNDS + 1;

/// A call that is tried until it is answered.
fn wait<W: Wait + Clock>(
    rt: &W,
    hub: &Hub<PlainCache>,
    pass: HubPass<PlainCache>,
    guest: u64,
    clock: &mut MemClock,
    call: Result<CacheCall, Stopped>,
) -> (HubPass<PlainCache>, Said)
    requires own { IsOf hub.now pass }
    requires guest { HasGuest pass guest }
    requires call { IfOk call MayMake }
    ensures same { IsSamePass pass result.0 }
    ensures guest { HasGuest result.0 guest }
{
    let gate = Sleeps { clock: rt };
    match &call {
        Ok(call) => {
            let (pass, said, _) = ask_until(rt, hub, pass, guest, clock, u128::MAX, &gate, call);
            (pass, said)
        }
        Err(_) => (pass, say(What::Other, 0)),
    }
}

/// A guest looks one key up. What was found is read twice, and purged; who is told to insert does so.
fn round<W: Wait + Clock>(
    rt: &W,
    alloc: Global,
    hub: &Hub<PlainCache>,
    pass: HubPass<PlainCache>,
    guest: u64,
    clock: &mut MemClock,
    key: u8,
) -> HubPass<PlainCache>
    requires own { IsOf hub.now pass }
    requires guest { HasGuest pass guest }
    ensures same { IsSamePass pass result }
    ensures guest { HasGuest result guest }
{
    let (pass, _) = wait(rt, hub, pass, guest, clock, lookup(alloc, key));
    let (pass, said) = wait(rt, hub, pass, guest, clock, tx_lookup(alloc, key));
    match said.what {
        What::Found => {
            let (pass, _) = wait(rt, hub, pass, guest, clock, Ok(read(said.number)));
            let (pass, _) = wait(rt, hub, pass, guest, clock, Ok(read(said.number)));
            wait(rt, hub, pass, guest, clock, purge(alloc, key)).0
        }
        What::MustInsert => insert(rt, alloc, hub, pass, guest, clock, said.number),
        _ => pass,
    }
}

/// An insertion with a body of one byte.
fn insert<W: Wait + Clock>(
    rt: &W,
    alloc: Global,
    hub: &Hub<PlainCache>,
    pass: HubPass<PlainCache>,
    guest: u64,
    clock: &mut MemClock,
    tx: u64,
) -> HubPass<PlainCache>
    requires own { IsOf hub.now pass }
    requires guest { HasGuest pass guest }
    ensures same { IsSamePass pass result }
    ensures guest { HasGuest result guest }
{
    let (pass, said) = wait(rt, hub, pass, guest, clock, tx_insert(alloc, tx));
    let object = said.number;
    let (pass, _) = wait(rt, hub, pass, guest, clock, write(alloc, object, b'x'));
    wait(
        rt,
        hub,
        pass,
        guest,
        clock,
        Ok(CacheCall::Finish { object }),
    )
    .0
}

/// The rounds of a guest, over one key of sixteen after another.
fn rounds<W: Wait + Clock>(
    rt: &W,
    alloc: Global,
    hub: &Hub<PlainCache>,
    pass: HubPass<PlainCache>,
    guest: u64,
    clock: &mut MemClock,
    from: u64,
) -> HubPass<PlainCache>
    requires own { IsOf hub.now pass }
    requires guest { HasGuest pass guest }
    ensures same { IsSamePass pass result }
    ensures guest { HasGuest result guest }
{
    let mut pass = pass;
    for i in 0..ROUNDS {
        let key = (from.saturating_add(i) % 16) as u8;
        pass = round(rt, alloc, hub, pass, guest, clock, key);
    }
    pass
}

/// One guest, from its Begin to its End.
fn work<W: Wait + Clock>(
    rt: &W,
    alloc: Global,
    hub: &Hub<PlainCache>,
    pass: HubPass<PlainCache>,
    from: u64,
) -> HubPass<PlainCache>
    requires { IsOf hub.now pass }
    ensures { IsSamePass pass result }
{
    let mut clock = MemClock::new(Vec::new(alloc));
    let (pass, guest) = begin_soon(rt, hub, pass, &mut clock, &Sleeps { clock: rt });
    match guest {
        Some(guest) => {
            let pass = rounds(rt, alloc, hub, pass, guest, &mut clock, from);
            hub.end_guest(rt, pass, guest, 0).0
        }
        None => pass,
    }
}

/// Each worker in a thread of its own, from a key of its own on.
fn all_work<R: Threads + Wait + Sync + Clock>(
    rt: &R,
    alloc: Global,
    hub: &Hub<PlainCache>,
    pass: HubPass<PlainCache>,
    workers: u64,
    from: u64,
) -> HubPass<PlainCache>
    requires own { IsOf hub.now pass }
    requires workers { (0 < workers) × (workers ≤ pass.parts) }
    ensures { IsSamePass pass result }
{
    if workers == 1 {
        return work(rt, alloc, hub, pass, from);
    }
    let half = workers / 2;
    let rest = workers - half;
    let (one, other) = hub.split(pass, half);
    let (one, other) = thread::join(
        rt,
        move || -> HubPass<PlainCache>
            requires { IsSync R.row × IsOf hub.now one × (0 < rest) × (rest ≤ one.parts) }
            ensures { IsSamePass one result }
        { all_work(rt, alloc, hub, one, rest, from) },
        move || -> HubPass<PlainCache>
            requires { IsSync R.row × IsOf hub.now other × (0 < half) × (half ≤ other.parts) }
            ensures { IsSamePass other result }
        { all_work(rt, alloc, hub, other, half, from.saturating_add(rest)) },
    );
    hub.rejoin(one, other)
}

/// The call may stand at this place of a guest's list.
fn stands_at(call: &CacheCall, place: u64) -> bool {
    match call {
        CacheCall::Begin => place == 0,
        CacheCall::End => place == END,
        CacheCall::Lookup { .. } => place % 5 == 1,
        CacheCall::TxLookup { .. } => place % 5 == 2,
        CacheCall::TxInsert { .. } => place % 5 == 3,
        CacheCall::Write { .. } => place % 5 == 4,
        CacheCall::Finish { .. } => place % 5 == 0,
        CacheCall::Read { .. } => place % 5 > 2,
        CacheCall::Purge { .. } => place % 5 == 0,
        _ => false,
    }
}

/// How many calls of the guest the entries have in the order in which it makes them.
fn calls_in_order(entries: &[Entry], guest: u64) -> u64 {
    let mut place: u64 = 0;
    for entry in entries {
        if entry.guest == guest && stands_at(&entry.call, place) {
            place = place.saturating_add(1);
        }
    }
    place
}

/// How many guests have all their calls there.
fn whole_guests(entries: &[Entry]) -> u64 {
    let mut guests: u64 = 0;
    for entry in entries {
        if entry.number == entry.guest && calls_in_order(entries, entry.guest) == END + 1 {
            guests = guests.saturating_add(1);
        }
    }
    guests
}

/// The workers share a new cache: the guests that have all their calls, and the entries.
fn share_one<R: Threads + Wait + Sync + Clock>(
    rt: &R,
    alloc: Global,
    from: u64,
) -> Result<(u64, u64), Stopped> {
    let (hub, pass) = opened(alloc, 1_000_000)?;
    let pass = all_work(rt, alloc, &hub, pass, WORKERS, from);
    let history = hub.finish(pass);
    let entries = history.entries();
    Ok((whole_guests(entries), entries.len() as u64))
}

#[test]
fn eight_threads_make_ten_thousand_calls_each(rt: HostRuntime) -> Result<(), Fail> {
    for cache in 0..CACHES {
        let told = share_one(&rt, rt.alloc(), cache)?;
        assert_eq!(rt; told, (WORKERS, WORKERS * (END + 1)));
    }
    Ok(())
}
