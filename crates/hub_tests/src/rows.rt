//! Worked rows by one thread.
ghost use Rattle.std.specs.Prelude.{◌≡◌, ◌+◌};
ghost use Rattle.turnstile.specs.Pass.{IsOf, IsSamePass};
ghost use Rattle.cache_hub.specs.Calls.{HasGuest};
ghost use Rattle.hub_tests.specs.Asked.{MayMake};

use crate::asked::*;
use cache_hub::{Hub, HubPass};
use cache_plain::PlainCache;
use cache_types::*;
use edge_outside::{FreeGate, MemClock};
use std::alloc::Global;
use std::sync::Wait;
use std::test::Fail;

/// Two guests look one key up, each by its own pass; the first makes another call, and the second looks again.
fn by_turns<W: Wait>(
    rt: &W,
    hub: &Hub<PlainCache>,
    one: HubPass<PlainCache>,
    first: u64,
    other: HubPass<PlainCache>,
    second: u64,
    look: &CacheCall,
    another: &CacheCall,
) -> (HubPass<PlainCache>, [Said; 4])
    requires one { IsOf hub.now one × HasGuest one first }
    requires other { IsOf hub.now other × HasGuest other second }
    requires look { MayMake look.now }
    requires another { MayMake another.now }
    ensures own { IsOf hub.now result.0 }
    ensures parts { result.0.parts ≡ one.parts + other.parts }
{
    let (one, told) = ask(hub, one, first, look);
    let (other, beside) = ask(hub, other, second, look);
    let (one, then) = ask(hub, one, first, another);
    let (other, next) = ask(hub, other, second, look);
    let (one, _) = hub.end_guest(rt, one, first, 0);
    let (other, _) = hub.end_guest(rt, other, second, 0);
    let pass = hub.rejoin(hub.learn(one), other);
    (pass, [told, beside, then, next])
}

/// The same over a new cache, with the number of its entries at the end.
fn two_passes<W: Wait>(
    rt: &W,
    alloc: Global,
    look: &CacheCall,
    another: &CacheCall,
) -> Result<(usize, [Said; 4]), Stopped>
    requires look { MayMake look.now }
    requires another { MayMake another.now }
{
    let (hub, pass) = opened(alloc, 100)?;
    let (one, other) = hub.split(pass, 1);
    let (one, first) = begin(&hub, one, 0);
    let (other, second) = begin(&hub, other, 0);
    match (first, second) {
        (Some(first), Some(second)) => {
            let (pass, said) = by_turns(rt, &hub, one, first, other, second, look, another);
            Ok((hub.finish(pass).entries().len(), said))
        }
        _ => Err(Stopped::Unanswered),
    }
}

// Who waits for an insertion is told to insert once the first guest gives it up.
#[test]
fn an_obligation_goes_to_the_next(rt: HostRuntime) -> Result<(), Fail> {
    let look = tx_lookup(rt.alloc(), b'k')?;
    let (entries, said) = two_passes(&rt, rt.alloc(), &look, &CacheCall::TxCancel { tx: 3 })?;
    assert_eq!(rt; entries, 7);
    assert_eq!(rt;
        said,
        [
            say(What::MustInsert, 3),
            say(What::NotYet, 0),
            say(What::Done, 4),
            say(What::MustInsert, 5),
        ]
    );
    Ok(())
}

// Calls by two passes stand in one history, in the order in which they were made.
#[test]
fn two_passes_make_one_history(rt: HostRuntime) -> Result<(), Fail> {
    let look = lookup(rt.alloc(), b'k')?;
    let purge = purge(rt.alloc(), b'k')?;
    let (entries, said) = two_passes(&rt, rt.alloc(), &look, &purge)?;
    assert_eq!(rt; entries, 8);
    assert_eq!(rt;
        said,
        [
            say(What::Nothing, 3),
            say(What::Nothing, 4),
            say(What::Done, 5),
            say(What::Nothing, 6),
        ]
    );
    Ok(())
}

/// A guest waits for itself, and is ended at the clock's last reading.
fn waited<W: Wait>(
    rt: &W,
    hub: &Hub<PlainCache>,
    pass: HubPass<PlainCache>,
    guest: u64,
    clock: &mut MemClock,
    look: &CacheCall,
) -> (HubPass<PlainCache>, [Said; 2])
    requires own { IsOf hub.now pass × HasGuest pass guest }
    requires look { MayMake look.now }
    ensures { IsSamePass pass result.0 }
{
    let (pass, told, _) = ask_until(rt, hub, pass, guest, clock, 10, &FreeGate, look);
    let (pass, waits, last) = ask_until(rt, hub, pass, guest, clock, 10, &FreeGate, look);
    let (pass, _) = hub.end_guest(rt, pass, guest, last);
    (pass, [told, waits])
}

/// The same over a new cache, with the last moment.
fn give_up<W: Wait>(
    rt: &W,
    alloc: Global,
    clock: &mut MemClock,
    look: &CacheCall,
) -> Result<(u64, [Said; 2]), Stopped>
    requires { MayMake look.now }
{
    let (hub, pass) = opened(alloc, 100)?;
    let (pass, guest) = begin(&hub, pass, 0);
    match guest {
        Some(guest) => {
            let (pass, said) = waited(rt, &hub, pass, guest, clock, look);
            Ok((last_moment(hub.finish(pass).entries()), said))
        }
        None => Err(Stopped::Unanswered),
    }
}

fn last_moment(entries: &[Entry]) -> u64 {
    match entries.last() {
        Some(entry) => entry.moment,
        None => 0,
    }
}

// The second lookup waits for the first, which nobody ends: the clock comes to the deadline at the third reading.
#[test]
fn a_call_is_given_up_at_the_deadline(rt: HostRuntime) -> Result<(), Fail> {
    let look = tx_lookup(rt.alloc(), b'k')?;
    let mut clock = MemClock::new(vec![in rt.alloc(); 0, 5, 10]?);
    let (moment, said) = give_up(&rt, rt.alloc(), &mut clock, &look)?;
    assert_eq!(rt; moment, 10);
    assert_eq!(rt; said, [say(What::MustInsert, 2), say(What::Timeout, 10)]);
    Ok(())
}
