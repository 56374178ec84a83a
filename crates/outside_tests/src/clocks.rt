//! The clock in memory, through its trait, and the gate that holds nobody.
use edge_outside::*;
use std::alloc::Global;
use std::test::Fail;

fn two_readings<C: Clock, G: Gate>(clock: &mut C, gate: &G) -> (u64, u64) {
    gate.before(1, 1);
    let first = clock.now();
    gate.idle();
    (first, clock.now())
}

#[test]
fn a_clock_stays_at_its_last_reading(rt: HostRuntime) -> Result<(), Fail> {
    let alloc: Global = rt.alloc();
    let mut none = MemClock::new(Vec::new(alloc));
    assert_eq!(rt; two_readings(&mut none, &FreeGate), (0, 0));
    let mut clock = MemClock::new(vec![in alloc; 5, 3, 9]?);
    assert_eq!(rt; two_readings(&mut clock, &FreeGate), (5, 3));
    assert_eq!(rt; two_readings(&mut clock, &FreeGate), (9, 9));
    Ok(())
}
