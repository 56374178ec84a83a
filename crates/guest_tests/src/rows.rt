//! Modules with their fuel, how their guests end, and how many calls they made.

use crate::modules::{
    ASKS_A_CLOCK, CALLS, CALLS_ITSELF, DIVIDES, EXITS, GROWS, GROWS_TO_THE_MOST, NOTHING, ONE_NOP,
    PAST_THE_END, SPINS, TAKES_HANDLES, TRAPS, USES_A_CACHE,
};
use crate::playing::{Given, played};
use crate::starting::{START_ASKS, START_EXITS, START_SPINS, START_TRAPS, STARTS, STARTS_TWICE};
use cache_types::{Outcome, TrapNumber};
use std::alloc::Global;
use std::test::Fail;

const NEVER: u64 = 1000;

/// A module, its fuel, what its clock reads, and behind how many calls it is stopped; how it is over, and with how many events.
type Row = (&'static [u8], u64, u64, u64, Outcome, usize);

fn ends_so(alloc: Global, row: &Row) -> bool {
    let (bytes, fuel, reading, stop_at, outcome, calls) = *row;
    let given = Given {
        fuel,
        reading,
        stop_at,
    };
    match played(alloc, bytes, given) {
        Some((ended, trace)) => ended == outcome && trace.items().len() == calls,
        None => false,
    }
}

/// The place of the first row whose guest doesn't end so, from 0.
fn first_off(alloc: Global, rows: &[Row]) -> Option<usize> {
    for (place, row) in rows.iter().enumerate() {
        if !ends_so(alloc, row) {
            return Some(place);
        }
    }
    None
}

#[test]
fn guests_end(rt: HostRuntime) -> Result<(), Fail> {
    let divided = Outcome::Trapped(TrapNumber::DivideByZero);
    let full = Outcome::Trapped(TrapNumber::StackFull);
    let segment = Outcome::Trapped(TrapNumber::Segment);
    let unreachable = Outcome::Trapped(TrapNumber::Unreachable);
    let rows: [Row; 24] = [
        (NOTHING, 0, 0, NEVER, Outcome::Returned, 2),
        (ONE_NOP, 0, 0, NEVER, Outcome::OutOfFuel, 2),
        (ONE_NOP, 1, 0, NEVER, Outcome::Returned, 2),
        (TRAPS, 0, 0, NEVER, Outcome::OutOfFuel, 2),
        (TRAPS, 1, 0, NEVER, unreachable, 2),
        (EXITS, 2, 0, NEVER, Outcome::Exited(7), 2),
        (EXITS, 1, 0, NEVER, Outcome::OutOfFuel, 2),
        (DIVIDES, 9, 0, NEVER, divided, 2),
        (SPINS, 1000, 0, NEVER, Outcome::OutOfFuel, 2),
        // The 2,048th call is the first that there is no room for.
        (CALLS_ITSELF, 2048, 0, NEVER, full, 2),
        (CALLS_ITSELF, 2047, 0, NEVER, Outcome::OutOfFuel, 2),
        (GROWS, 9, 0, NEVER, Outcome::Exited(15), 2),
        (PAST_THE_END, 9, 0, NEVER, segment, 2),
        (ASKS_A_CLOCK, 10, 42, NEVER, Outcome::Returned, 3),
        (ASKS_A_CLOCK, 9, 42, NEVER, Outcome::OutOfFuel, 3),
        (ASKS_A_CLOCK, 4, 42, NEVER, Outcome::OutOfFuel, 3),
        (ASKS_A_CLOCK, 3, 42, NEVER, Outcome::OutOfFuel, 2),
        (ASKS_A_CLOCK, 11, 41, NEVER, unreachable, 3),
        (CALLS, 1000, 0, NEVER, Outcome::Exited(0), 2),
        (USES_A_CACHE, 1000, 0, NEVER, Outcome::Exited(0), 11),
        // One that is stopped: before its Begin, behind it, behind a row's call, and behind its End.
        (NOTHING, 0, 0, 0, Outcome::Unscheduled, 0),
        (NOTHING, 0, 0, 1, Outcome::Unscheduled, 2),
        (ASKS_A_CLOCK, 10, 42, 2, Outcome::Unscheduled, 3),
        (ASKS_A_CLOCK, 10, 42, 3, Outcome::Unscheduled, 3),
    ];
    assert_eq!(rt; first_off(rt.alloc(), &rows), None);
    Ok(())
}

#[test]
fn guests_take_what_there_is(rt: HostRuntime) -> Result<(), Fail> {
    let rows: [Row; 2] = [
        // The last of 65,536 handles, and 13: too many.
        (
            TAKES_HANDLES,
            1_000_000,
            0,
            NEVER,
            Outcome::Exited(65_549),
            2,
        ),
        // 16 times -1, and 1, and -1.
        (
            GROWS_TO_THE_MOST,
            99,
            0,
            NEVER,
            Outcome::Exited(4_294_967_280),
            2,
        ),
    ];
    assert_eq!(rt; first_off(rt.alloc(), &rows), None);
    Ok(())
}

/// A start function runs first; `_start` has what it left, of fuel, globals and memory.
#[test]
fn start_functions_run(rt: HostRuntime) -> Result<(), Fail> {
    let unreachable = Outcome::Trapped(TrapNumber::Unreachable);
    let rows: [Row; 15] = [
        (STARTS, 12, 0, NEVER, Outcome::Exited(52), 2),
        (STARTS, 11, 0, NEVER, Outcome::OutOfFuel, 2),
        (STARTS, 4, 0, NEVER, Outcome::OutOfFuel, 2),
        (STARTS_TWICE, 18, 0, NEVER, Outcome::Exited(2), 2),
        (STARTS_TWICE, 17, 0, NEVER, Outcome::OutOfFuel, 2),
        (START_TRAPS, 1, 0, NEVER, unreachable, 2),
        (START_TRAPS, 0, 0, NEVER, Outcome::OutOfFuel, 2),
        (START_SPINS, 1000, 0, NEVER, Outcome::OutOfFuel, 2),
        (START_EXITS, 2, 0, NEVER, Outcome::Exited(9), 2),
        (START_ASKS, 10, 42, NEVER, Outcome::Returned, 3),
        (START_ASKS, 9, 42, NEVER, Outcome::OutOfFuel, 3),
        (START_ASKS, 4, 42, NEVER, Outcome::OutOfFuel, 3),
        (START_ASKS, 3, 42, NEVER, Outcome::OutOfFuel, 2),
        (START_ASKS, 11, 41, NEVER, unreachable, 3),
        // It is stopped behind the call that its start function makes.
        (START_ASKS, 10, 42, 2, Outcome::Unscheduled, 3),
    ];
    assert_eq!(rt; first_off(rt.alloc(), &rows), None);
    Ok(())
}
