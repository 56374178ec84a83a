//! The turnstile and its passes.
ghost use Rattle.std.specs.Prelude.{◌≡◌, ◌≢◌, ℕ, ◌+◌, ◌-◌, ◌<◌, ◌≤◌, List, [], ◌∷◌, ◌++◌, map, length, All, IfOk, IfErr, Some, Option};
ghost use mathlib.Core.List.{IsPrefix};
ghost use Rattle.turnstile.specs.Standing.{MayJoin, family_entries};
ghost use Rattle.turnstile.specs.Rule.{all_parts};
ghost use Rattle.turnstile.specs.Pass.{IsOf, IsSamePass, Stood, Served, first_pass, new_pass, both_passes, HasLearned};
ghost use Rattle.turnstile.specs.Log.{entries_of, numbered};

use crate::passing::{cut, join};
use crate::standing::{Kept, Standing};
use crate::steps::{COUNT, FREE, VALUE, claim, serve};
use crate::view::{Learn, Place, Turns, View};
use atomic_table::{Refused, Table};
use std::alloc::{AllocFailed, Global};
use std::marker::{Brand, Model};
use std::snapshot::Snapshot;
use std::sync::Wait;
use std::thread;

/// The turn was held by another pass.
#[derive(Debug, Clone, Copy)]
pub struct Busy;

/// One value that any number of passes take turns at, from any threads.
#[derive(Drop)]
pub struct Turnstile<T: Standing> {
    table: Table<Option<T>, View<T, T::Entry>, Snapshot<T>, Turns<T>, Global>,
}

impl<T: Standing> Model for Turnstile<T> {
    ghost use Rattle.std.specs.Prelude.{◌≡◌};
    ghost use Rattle.turnstile.specs.Pass.{TurnstileView};

    ghost Value = { TurnstileView T };

    ghost view = { λ t. record { table = t.table.shared.table_id; start = t.table.shared.key.value } };

    ghost invariant = { λ t. (t.table.shared.table_id.words ≡ 2) × (t.table.shared.table_id.slots ≡ 1) };
}

/// What one caller has seen of the turnstile's list, and made. It has no bytes.
#[derive(Drop)]
pub struct Pass<T: Standing> {
    seat: Place<T>,
}

impl<T: Standing> Model for Pass<T> {
    ghost use Rattle.turnstile.specs.Rule.{IsOutside};
    ghost use Rattle.turnstile.specs.Pass.{PassView, pass_view};

    ghost Value = { PassView T T.Entry };

    ghost view = { λ p. pass_view p.seat.table_id p.seat.me.0 };

    ghost invariant = { λ p. IsOutside p.seat.me };
}

// The one slot, with the value.
fn slot_of<T>(alloc: Global, value: T) -> Result<Vec<Option<T>>, T>
    ensures slot { IfOk result (λ slots. slots.items ≡ Some value ∷ []) }
    ensures refused { IfErr result (λ back. back ≡ value) }
{
    let mut slots = Vec::new(alloc);
    match slots.push(Some(value)) {
        Ok(()) => Ok(slots),
        Err(AllocFailed { value: Some(back) }) => {
            slots.destroy_empty();
            Err(back)
        }
        Err(AllocFailed { value: None }) => unreachable!(),
    }
}

fn value_of<T>(mut slots: Vec<Option<T>>) -> T
    requires { (x : T) × (slots.items ≡ Some x ∷ []) }
    ensures { slots.items ≡ Some result ∷ [] }
{
    let Some(Some(value)) = slots.pop() else {
        unreachable!()
    };
    slots.destroy_empty();
    value
}

impl<T: Standing> Turnstile<T> {
    /// A turnstile with the value that is kept, and the pass with all its parts. Where there is no memory the value comes back.
    pub fn new(alloc: Global, value: T) -> Result<(Turnstile<T>, Pass<T>), T>
        requires sound { T.sound value }
        requires families { All (λ e. T.family e < T.first value + length (T.entries value)) (T.entries value) }
        ensures made { IfOk result (λ made. (made.0.start ≡ value) × (made.1 ≡ first_pass made.0 (T.entries value))) }
        ensures refused { IfErr result (λ back. back ≡ value) }
    {
        let start = Snapshot::of(&value);
        let slots = slot_of(alloc, value)?;
        match Table::new(alloc, &[FREE, 0], slots, &start) {
            Ok((table, seat)) => Ok((Turnstile { table }, Pass { seat })),
            Err(Refused { slots }) => Err(value_of(slots)),
        }
    }

    /// One try for the turn, which waits for nothing. At `Busy` the job was not served.
    pub fn try_turn<J>(&self, pass: Pass<T>, job: &J) -> (Pass<T>, Result<T::Answer, Busy>)
    where
        T: Kept<J>,
        requires own { IsOf self.now pass }
        requires family { MayJoin T.family (T.joins job.now) pass.mine }
        requires asks { T.asks job.now (family_entries T.family (T.joins job.now) (entries_of pass.mine)) }
        ensures served { IfOk result.1 (λ answer. Served T.setting T.first T.entries T.sound T.family (T.joins job.now) T.gives self.now pass job.now answer result.0) }
        ensures same { IsSamePass pass result.0 }
        ensures busy { IfErr result.1 (λ _. result.0 ≡ record pass { lost = pass.lost + 1 }) }
        ensures stood { Stood T.entries T.first T.family self.now result.0 }
    {
        let Pass { mut seat } = pass;
        let cells = &self.table.shared;
        if claim(cells, &mut seat) {
            let answer = serve(cells, &mut seat, job);
            (Pass { seat }, Ok(answer))
        } else {
            (Pass { seat }, Err(Busy))
        }
    }

    /// Tries for the turn until it gets it, and yields the processor between two tries.
    pub fn turn<J, W: Wait>(&self, rt: &W, pass: Pass<T>, job: &J) -> (Pass<T>, T::Answer)
    where
        T: Kept<J>,
        requires own { IsOf self.now pass }
        requires family { MayJoin T.family (T.joins job.now) pass.mine }
        requires asks { T.asks job.now (family_entries T.family (T.joins job.now) (entries_of pass.mine)) }
        ensures served { (losses : ℕ) × Served T.setting T.first T.entries T.sound T.family (T.joins job.now) T.gives self.now (record pass { lost = pass.lost + losses }) job.now result.1 result.0 }
        ensures same { IsSamePass pass result.0 }
        ensures stood { Stood T.entries T.first T.family self.now result.0 }
    {
        let mut pass = pass;
        for _ in rt.forever() {
            let (next, answer) = self.try_turn(pass, job);
            match answer {
                Ok(answer) => return (next, answer),
                Err(Busy) => pass = next,
            }
            thread::yield_now();
        }
        unreachable!()
    }

    /// The second pass gets so many parts, and can go to another thread.
    pub fn split(&self, pass: Pass<T>, parts: u64) -> (Pass<T>, Pass<T>)
        requires own { IsOf self.now pass }
        requires parts { (0 < parts) × (parts < pass.parts) }
        ensures kept { result.0 ≡ record pass { parts = pass.parts - parts } }
        ensures given { result.1 ≡ new_pass pass parts }
    {
        let Pass { mut seat } = pass;
        let other = cut::<Brand, T>(&self.table.shared, &mut seat, parts);
        (Pass { seat }, Pass { seat: other })
    }

    /// Two passes in one.
    pub fn rejoin(&self, one: Pass<T>, other: Pass<T>) -> Pass<T>
        requires one { IsOf self.now one }
        requires other { IsOf self.now other }
        ensures both { result ≡ both_passes one other }
        ensures one_seen { IsPrefix one.seen result.seen }
        ensures other_seen { IsPrefix other.seen result.seen }
        ensures stood { Stood T.entries T.first T.family self.now result }
    {
        let Pass { mut seat } = one;
        let Pass { seat: other } = other;
        join(&self.table.shared, &mut seat, other);
        Pass { seat }
    }

    /// Reads the count, and has seen what was published then. The clauses say that nothing that was seen is forgotten, not
    /// how much is learned.
    pub fn learn(&self, pass: Pass<T>) -> Pass<T>
        requires own { IsOf self.now pass }
        ensures learned { HasLearned (T.entries self.now.start) pass result }
        ensures stood { Stood T.entries T.first T.family self.now result }
    {
        let Pass { mut seat } = pass;
        self.table.shared.load::<Learn<T>>(&mut seat, COUNT);
        Pass { seat }
    }

    /// The value, by the pass with all parts.
    pub fn close(self, pass: Pass<T>) -> T
        requires own { IsOf self pass }
        requires all { pass.parts ≡ all_parts }
        ensures list { T.entries result ≡ T.entries self.start ++ entries_of pass.mine }
        ensures numbers { pass.mine ≡ numbered (T.first self.start + length (T.entries self.start)) (entries_of pass.mine) }
        ensures seen { IsPrefix pass.seen (T.entries result) }
        ensures setting { T.setting result ≡ T.setting self.start }
        ensures first { T.first result ≡ T.first self.start }
        ensures sound { T.sound result }
    {
        let Turnstile { table } = self;
        let Pass { seat } = pass;
        let mut closed = table.close_with(seat);
        let slot = closed.take(VALUE);
        closed.free();
        match slot {
            Some(value) => value,
            None => unreachable!(),
        }
    }
}
