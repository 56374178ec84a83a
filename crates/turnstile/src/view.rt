//! What a seat at the turnstile's table knows, the table's rule, and what each step tells.
use crate::standing::Standing;
use atomic_table::{Join, Play, Seat, Shared, Split, TableRule};
use std::collections::LinkedList;
use std::marker::{Brand, PhantomData};
use std::snapshot::Snapshot;

// No value of it is made. A spent seat, which another took in, has no parts.
pub struct View<T, E> {
    pub start: Option<T>,
    pub seen: LinkedList<E>,
    // What a seat that was just joined had seen.
    pub told: LinkedList<E>,
    pub mine: LinkedList<(u64, E)>,
    pub lost: u64,
    pub idle: u64,
    pub parts: u64,
    // The published list, for the seat that has the turn.
    pub inside: Option<LinkedList<E>>,
}

/// The table's rule.
pub struct Turns<T> {
    marker: PhantomData<T>,
}

impl<T: Standing> TableRule<Option<T>, View<T, T::Entry>, Snapshot<T>> for Turns<T> {
    ghost use Rattle.std.specs.Prelude.{◌+◌, length, [], None, Some};
    ghost use Rattle.turnstile.specs.Standing.{Fits};
    ghost use Rattle.turnstile.specs.Rule.{Stands, first_view};

    ghost holds = { λ k. Stands k.value (T.entries k.value) (T.first k.value + length (T.entries k.value)) (Fits T.setting T.first T.entries T.sound k.value) T.family };

    ghost first = { λ k. first_view k.value (T.entries k.value) };
}

/// The turn is claimed.
pub struct Claim<T> {
    marker: PhantomData<T>,
}

impl<T: Standing> Play<Option<T>, View<T, T::Entry>> for Claim<T> {
    ghost use Rattle.turnstile.specs.Standing.{Fits};
    ghost use Rattle.turnstile.specs.Plays.{Claimed};

    ghost then = { Claimed T.entries T.first (Fits T.setting T.first T.entries T.sound) T.family };
}

/// The entry that the job added is counted.
pub struct Publish<T> {
    marker: PhantomData<T>,
}

impl<T: Standing> Play<Option<T>, View<T, T::Entry>> for Publish<T> {
    ghost use Rattle.turnstile.specs.Standing.{Fits};
    ghost use Rattle.turnstile.specs.Plays.{Published};

    ghost then = { Published T.entries T.first (Fits T.setting T.first T.entries T.sound) T.family };
}

/// The turn is given back after an entry was counted.
pub struct Leave<T> {
    marker: PhantomData<T>,
}

impl<T: Standing> Play<Option<T>, View<T, T::Entry>> for Leave<T> {
    ghost use Rattle.turnstile.specs.Standing.{Fits};
    ghost use Rattle.turnstile.specs.Plays.{Left};

    ghost then = { Left T.entries T.first (Fits T.setting T.first T.entries T.sound) T.family };
}

/// The turn is given back, and no entry was added.
pub struct LeaveIdle<T> {
    marker: PhantomData<T>,
}

impl<T: Standing> Play<Option<T>, View<T, T::Entry>> for LeaveIdle<T> {
    ghost use Rattle.turnstile.specs.Standing.{Fits};
    ghost use Rattle.turnstile.specs.Plays.{LeftIdle};

    ghost then = { LeftIdle T.entries T.first (Fits T.setting T.first T.entries T.sound) T.family };
}

/// The count is read.
pub struct Learn<T> {
    marker: PhantomData<T>,
}

impl<T: Standing> Play<Option<T>, View<T, T::Entry>> for Learn<T> {
    ghost use Rattle.turnstile.specs.Standing.{Fits};
    ghost use Rattle.turnstile.specs.Plays.{Learned};

    ghost then = { Learned T.entries T.first (Fits T.setting T.first T.entries T.sound) T.family };
}

/// What a joined seat had seen is compared.
pub struct Settle<T> {
    marker: PhantomData<T>,
}

impl<T: Standing> Play<Option<T>, View<T, T::Entry>> for Settle<T> {
    ghost use Rattle.turnstile.specs.Standing.{Fits};
    ghost use Rattle.turnstile.specs.Plays.{Settled};

    ghost then = { Settled T.entries T.first (Fits T.setting T.first T.entries T.sound) T.family };
}

/// How many parts a new seat gets.
pub trait Portion {
    ghost use Rattle.std.specs.Prelude.{ℕ};

    ghost portion: { ℕ };
}

impl Portion for Brand {
    ghost portion = { 1 };
}

/// A seat is cut in two.
pub struct Cut<M> {
    marker: PhantomData<M>,
}

impl<T, E, M: Portion> Split<View<T, E>> for Cut<M> {
    ghost use Rattle.turnstile.specs.Plays.{kept_part, new_part};

    ghost left = { kept_part M.portion };

    ghost right = { new_part M.portion };
}

/// A seat takes in another.
pub struct Together;

impl<T, E> Join<View<T, E>> for Together {
    ghost use Rattle.turnstile.specs.Plays.{joined, spent_view};

    ghost both = { joined };

    ghost spent = { spent_view };
}

pub type Cells<T> = Shared<Option<T>, View<T, <T as Standing>::Entry>, Snapshot<T>, Turns<T>>;

pub type Place<T> = Seat<Option<T>, View<T, <T as Standing>::Entry>>;
