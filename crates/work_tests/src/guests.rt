//! Guests that make Begin and End alone.

use cache_hub::Hub;
use cache_plain::PlainCache;
use cache_types::{Done, Items, Octets, Outcome};
use edge_body::RequestHead;
use edge_outside::{FreeGate, MemClock, MemSink, NoLink};
use edge_work::{Hand, work_one};
use scripted_guest::Scripted;
use std::alloc::{AllocError, Global};
use std::sync::Wait;
use std::test::Fail;

/// What a test looks at.
#[derive(Clone, Copy, Debug, PartialEq, Eq)]
struct Told {
    outcome: Outcome,
    guest: u64,
    events: usize,
    entries: usize,
    sent: usize,
}

fn get(alloc: Global) -> Result<RequestHead, AllocError> {
    let method = Octets::of(alloc, b"GET")?;
    let uri = Octets::of(alloc, b"http://x/")?;
    Ok(RequestHead::new(method, uri, 2, Items::of(Vec::new(alloc))))
}

fn look_at(done: &Done, entries: usize, sink: &MemSink) -> Told {
    Told {
        outcome: done.outcome,
        guest: done.guest,
        events: done.trace.items().len(),
        entries,
        sent: sink.bytes().len(),
    }
}

/// One guest over a new cache, with these readings of its clock, and a sink that fails at these writes.
fn run<W: Wait>(
    rt: &W,
    alloc: Global,
    limit: u64,
    readings: Vec<u64>,
    fails: Vec<u64>,
) -> Result<Option<Told>, AllocError> {
    let request = get(alloc)?;
    let mut player = Scripted::new(alloc, Items::of(Vec::new(alloc)))?;
    let mut hand = Hand {
        clock: MemClock::new(readings),
        link: NoLink::new(),
    };
    let mut sink = MemSink::new(alloc, fails);
    match Hub::open(alloc, PlainCache::new(alloc, 100)) {
        Ok((hub, pass)) => {
            let pass = hub.learn(pass);
            let (pass, done) = work_one(
                rt,
                alloc,
                &hub,
                pass,
                1,
                limit,
                &request,
                &mut player,
                &mut hand,
                &FreeGate,
                &mut sink,
            );
            let entries = hub.finish(pass).entries().len();
            Ok(Some(look_at(&done, entries, &sink)))
        }
        Err(_) => Ok(None),
    }
}

// The failure has 76 bytes. A clock may go back; a guest that comes to its deadline before its Begin makes no entry.
#[test]
fn a_guest_and_its_clock(rt: HostRuntime) -> Result<(), Fail> {
    let alloc = rt.alloc();
    let whole = Told {
        outcome: Outcome::Returned,
        guest: 1,
        events: 2,
        entries: 2,
        sent: 76,
    };
    let readings = vec![in alloc; 5, 6]?;
    assert_eq!(rt;
        run(&rt, alloc, 10, readings, Vec::new(alloc))?,
        Some(whole)
    );
    let readings = vec![in alloc; 5, 3]?;
    assert_eq!(rt; run(&rt, alloc, 1, readings, Vec::new(alloc))?, Some(whole));
    let readings = vec![in alloc; 5, 6]?;
    let fails = vec![in alloc; 1]?;
    assert_eq!(rt;
        run(&rt, alloc, 10, readings, fails)?,
        Some(Told { sent: 0, ..whole })
    );
    let late = Told {
        outcome: Outcome::Timeout {
            first: 5,
            reading: 7,
        },
        guest: 0,
        events: 0,
        entries: 0,
        sent: 76,
    };
    let readings = vec![in alloc; 5, 7]?;
    assert_eq!(rt; run(&rt, alloc, 2, readings, Vec::new(alloc))?, Some(late));
    Ok(())
}
