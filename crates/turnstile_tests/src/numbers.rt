//! Numbers that callers add, from one thread and from several.
ghost use Rattle.std.specs.Prelude.{◌≡◌, ℕ, ◌+◌, ◌∷◌, [], length, IfOk, IfErr, IfSome, MatchOption, None, Some};
ghost use Rattle.std.specs.Prelude.{◌<◌, ◌≤◌, MatchBool};
ghost use Rattle.std.specs.Thread.{IsSync};
ghost use Rattle.turnstile.specs.Rule.{all_parts};
ghost use Rattle.turnstile.specs.Standing.{MayJoin};
ghost use Rattle.turnstile.specs.Pass.{IsOf, IsSamePass};

use std::alloc::Global;
use std::sync::Wait;
use std::sync::atomic::{AtomicBool, Ordering};
use std::test::Fail;
use std::thread;
use std::thread::Threads;
use turnstile::*;

// How often a thread looks whether another has come to a place.
const TURNS: u32 = 10_000_000;

const MOST: usize = 1 << 32;

#[derive(Clone, Copy, Debug, PartialEq, Eq)]
struct Entry {
    family: u64,
    by: u64,
    value: u64,
}

#[derive(Drop)]
struct Numbers {
    list: Vec<Entry>,
}

impl Standing for Numbers {
    type Entry = Entry;

    ghost Setting = { Unit {0} };

    ghost setting = { λ _. tt };

    ghost entries = { λ n. n.list.items };

    ghost first = { λ _. 1 };

    ghost sound = { λ _. Unit {0} };

    ghost family = { λ e. e.family };
}

// It adds a number, which opens a family or joins one.
#[derive(Clone, Copy)]
struct Add {
    joins: Option<u64>,
    by: u64,
    value: u64,
}

impl Kept<Add> for Numbers {
    // The number of the entry, unless there was no room.
    type Answer = Option<u64>;

    ghost use Rattle.turnstile.specs.Standing.{family_number};

    ghost joins = { λ j. j.joins };

    ghost asks = { λ _ _. Unit {0} };

    ghost gives = { λ n j answer gained. MatchOption answer (gained ≡ None) (λ k. (k ≡ 1 + length n.list.items) × (gained ≡ Some (record { family = family_number j.joins k; by = j.by; value = j.value }))) };

    fn serve(&mut self, job: &Add) -> (Option<u64>, bool) {
        if self.list.len() >= MOST {
            return (None, false);
        }
        let number = self.list.len() as u64 + 1;
        let entry = Entry {
            family: job.joins.unwrap_or(number),
            by: job.by,
            value: job.value,
        };
        match self.list.push(entry) {
            Ok(()) => (Some(number), true),
            Err(_) => (None, false),
        }
    }
}

// It says that it is inside, and goes on once it is told that the other was answered.
#[derive(Drop)]
struct Hold<'a> {
    add: Add,
    inside: &'a AtomicBool,
    answered: &'a AtomicBool,
}

impl<'a> Kept<Hold<'a>> for Numbers {
    type Answer = Option<u64>;

    ghost use Rattle.turnstile.specs.Standing.{family_number};

    ghost joins = { λ j. j.add.joins };

    ghost asks = { λ _ _. Unit {0} };

    ghost gives = { λ n j answer gained. MatchOption answer (gained ≡ None) (λ k. (k ≡ 1 + length n.list.items) × (gained ≡ Some (record { family = family_number j.add.joins k; by = j.add.by; value = j.add.value }))) };

    fn serve(&mut self, job: &Hold<'a>) -> (Option<u64>, bool) {
        job.inside.store(true, Ordering::SeqCst);
        wait_for(job.answered);
        let add: Add = job.add;
        <Numbers as Kept<Add>>::serve(self, &add)
    }
}

fn wait_for(flag: &AtomicBool) {
    for _ in 0..TURNS {
        if flag.load(Ordering::SeqCst) {
            return;
        }
        thread::yield_now();
    }
}

fn opening(by: u64, value: u64) -> Add
    ensures { (result.joins ≡ None) × (result.by ≡ by) × (result.value ≡ value) }
{
    Add {
        joins: None,
        by,
        value,
    }
}

fn made(alloc: Global) -> Result<(Turnstile<Numbers>, Pass<Numbers>), Fail>
    ensures { IfOk result (λ t. IsOf t.0 t.1 × (t.1.parts ≡ all_parts)) }
{
    match Turnstile::new(
        alloc,
        Numbers {
            list: Vec::new(alloc),
        },
    ) {
        Ok(both) => Ok(both),
        Err(_) => Err(Fail::from("no memory")),
    }
}

// Two passes of one thread: what they add stands in one list.
#[test]
fn numbers_of_two_passes(rt: HostRuntime) -> Result<(), Fail> {
    let (turnstile, one) = made(rt.alloc())?;
    let (one, first) = turnstile.try_turn(one, &opening(1, 10));
    let (one, second) = turnstile.try_turn(one, &opening(1, 20));
    assert!(rt; matches!(first, Ok(Some(1))) && matches!(second, Ok(Some(2))));
    let (one, other) = turnstile.split(one, 1);
    let (one, third) = turnstile.try_turn(one, &opening(1, 30));
    assert!(rt; matches!(third, Ok(Some(3))));
    let other = turnstile.learn(other);
    let one = turnstile.rejoin(one, other);
    let numbers = turnstile.close(one);
    let values: Vec<u64> = numbers.list.iter().map(|e| e.value).collect(rt.alloc())?;
    assert_eq!(rt; values.as_slice(), [10, 20, 30].as_slice());
    Ok(())
}

// It opens a family, which the pass may then join.
fn opened(
    turnstile: &Turnstile<Numbers>,
    pass: Pass<Numbers>,
    value: u64,
) -> (Pass<Numbers>, Option<u64>)
    requires { IsOf turnstile.now pass }
    ensures same { IsSamePass pass result.0 }
    ensures opened { IfSome result.1 (λ number. MayJoin ⟦<Numbers as Standing>⟧.family (Some number) result.0.mine) }
{
    let (pass, answer) = turnstile.try_turn(pass, &opening(1, value));
    match answer {
        Ok(number) => (pass, number),
        Err(Busy) => (pass, None),
    }
}

// A family of two entries, which stay with their pass.
#[test]
fn a_family_of_one_pass(rt: HostRuntime) -> Result<(), Fail> {
    let (turnstile, one) = made(rt.alloc())?;
    let (one, number) = opened(&turnstile, one, 10);
    let Some(number) = number else {
        panic!(rt; "no family")
    };
    let (one, other) = turnstile.split(one, 1);
    let more = Add {
        joins: Some(number),
        by: 1,
        value: 20,
    };
    let (one, second) = turnstile.try_turn(one, &more);
    assert!(rt; matches!(second, Ok(Some(2))));
    let other = turnstile.learn(other);
    let one = turnstile.rejoin(other, one);
    let numbers = turnstile.close(one);
    let families: Vec<u64> = numbers.list.iter().map(|e| e.family).collect(rt.alloc())?;
    assert_eq!(rt; families.as_slice(), [1, 1].as_slice());
    Ok(())
}

// One thread stays inside until the other was answered, which is Busy, and lost once.
fn held<R: Threads + Sync>(
    rt: &R,
    turnstile: &Turnstile<Numbers>,
    one: Pass<Numbers>,
    other: Pass<Numbers>,
    inside: &AtomicBool,
    answered: &AtomicBool,
) -> (Pass<Numbers>, Pass<Numbers>, bool)
    requires one { IsOf turnstile.now one }
    requires other { IsOf turnstile.now other }
    ensures one { IsSamePass one result.0 }
    ensures other { IsSamePass other result.1 }
    ensures lost { MatchBool result.2 (result.1.lost ≡ other.lost + 1) (Unit {0}) }
{
    let (one, (other, busy)) = thread::join(
        rt,
        move || -> Pass<Numbers>
            requires { IsOf turnstile.now one }
            ensures { IsSamePass one result }
        {
            let add = opening(1, 10);
            turnstile
                .try_turn(
                    one,
                    &Hold {
                        add,
                        inside,
                        answered,
                    },
                )
                .0
        },
        move || -> (Pass<Numbers>, bool)
            requires { IsOf turnstile.now other }
            ensures { IsSamePass other result.0 × MatchBool result.1 (result.0.lost ≡ other.lost + 1) (Unit {0}) }
        {
            wait_for(inside);
            let (other, answer) = turnstile.try_turn(other, &opening(2, 20));
            answered.store(true, Ordering::SeqCst);
            match answer {
                Ok(_) => (other, false),
                Err(Busy) => (other, true),
            }
        },
    );
    (one, other, busy)
}

#[test]
fn busy_while_another_is_inside(rt: HostRuntime) -> Result<(), Fail> {
    let (turnstile, one) = made(rt.alloc())?;
    let (one, other) = turnstile.split(one, 7);
    let inside = AtomicBool::new(false);
    let answered = AtomicBool::new(false);
    let (one, other, busy) = held(&rt, &turnstile, one, other, &inside, &answered);
    assert!(rt; busy);
    let one = turnstile.rejoin(one, other);
    let numbers = turnstile.close(one);
    let values: Vec<u64> = numbers.list.iter().map(|e| e.value).collect(rt.alloc())?;
    assert_eq!(rt; values.as_slice(), [10].as_slice());
    Ok(())
}

const CALLERS: u64 = 8;

const EACH: u64 = 1_250;

// So many numbers in order, by one caller.
fn work<R: Wait>(
    rt: &R,
    turnstile: &Turnstile<Numbers>,
    pass: Pass<Numbers>,
    by: u64,
) -> Pass<Numbers>
    requires { IsOf turnstile.now pass }
    ensures { IsSamePass pass result }
{
    let mut pass = pass;
    for value in 0..EACH {
        pass = turnstile.turn(rt, pass, &opening(by, value)).0;
    }
    pass
}

// Each caller in a thread of its own.
fn all_work<R: Threads + Wait + Sync>(
    rt: &R,
    turnstile: &Turnstile<Numbers>,
    pass: Pass<Numbers>,
    from: u64,
    callers: u64,
) -> Pass<Numbers>
    requires own { IsOf turnstile.now pass }
    requires callers { (0 < callers) × (callers ≤ pass.parts) }
    requires last { from + callers < 100 }
    ensures { IsSamePass pass result }
{
    if callers == 1 {
        return work(rt, turnstile, pass, from);
    }
    let half = callers / 2;
    let rest = callers - half;
    let (one, other) = turnstile.split(pass, half);
    let (one, other) = thread::join(
        rt,
        move || -> Pass<Numbers>
            requires { IsSync R.row × IsOf turnstile.now one × (0 < rest) × (rest ≤ one.parts) × (from + half + rest < 100) }
            ensures { IsSamePass one result }
        { all_work(rt, turnstile, one, from + half, rest) },
        move || -> Pass<Numbers>
            requires { IsSync R.row × IsOf turnstile.now other × (0 < half) × (half ≤ other.parts) × (from + half < 100) }
            ensures { IsSamePass other result }
        { all_work(rt, turnstile, other, from, half) },
    );
    turnstile.rejoin(one, other)
}

#[test]
fn each_caller_once_and_in_order(rt: HostRuntime) -> Result<(), Fail> {
    let (turnstile, pass) = made(rt.alloc())?;
    let pass = all_work(&rt, &turnstile, pass, 0, CALLERS);
    let numbers = turnstile.close(pass);
    assert_eq!(rt; numbers.list.len() as u64, CALLERS * EACH);
    for by in 0..CALLERS {
        let mine: Vec<u64> = numbers
            .list
            .iter()
            .filter(|e| e.by == by)
            .map(|e| e.value)
            .collect(rt.alloc())?;
        let wanted: Vec<u64> = (0..EACH).collect(rt.alloc())?;
        assert_eq!(rt; mine.as_slice(), wanted.as_slice());
    }
    Ok(())
}
