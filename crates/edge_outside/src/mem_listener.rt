//! A listener in memory, over a list of places with connections.
ghost use Rattle.std.specs.Prelude.{◌≡◌, ◌<◌, ◌+◌, ◌-◌, ℕ, length, drop, Some, None, All, IsSome, slice_get, slice_set};
ghost use Rattle.edge_outside.specs.Listener.{IsEmptyAt, AcceptsInMemory, PutsBackInMemory};

use crate::plan::Plan;
use crate::{IoFault, Listener, MemConn};
use std::alloc::Global;
use std::marker::Model;

/// A listener in memory.
#[derive(Drop)]
pub struct MemListener {
    places: Vec<Option<MemConn>>,
    given: usize,
    plan: Plan,
    faults: u64,
}

impl Model for MemListener {
    ghost use Rattle.std.specs.Prelude.{length, drop, ◌≤◌, All, IsSome};
    ghost use Rattle.edge_outside.specs.Peer.{ConnInMemory};
    ghost use Rattle.edge_outside.specs.Listener.{ListenerInMemory};

    ghost Value = { ListenerInMemory ConnInMemory };

    ghost invariant = { λ s. (s.given ≤ length s.places.items) × All IsSome (drop s.given s.places.items) };

    ghost view = { λ s. record { content = record { places = s.places.items; given = s.given; calls = s.plan }; faults = s.faults } };
}

impl MemListener {
    /// Gives these connections, one in each place. The accepts with the numbers in `fails` fail, counted from 1.
    pub fn new(places: Vec<Option<MemConn>>, fails: Vec<u64>) -> Self
        requires { All IsSome places.items }
        ensures places { result.content.places ≡ places.items }
        ensures given { result.content.given ≡ 0 }
        ensures fails { result.content.calls.fails ≡ fails.items }
        ensures made { result.content.calls.made ≡ 0 }
        ensures faults { result.faults ≡ 0 }
    {
        MemListener {
            places,
            given: 0,
            plan: Plan::new(fails),
            faults: 0,
        }
    }

    /// The places, each with a connection, or empty where its connection was given and isn't back.
    pub fn places(&self) -> &[Option<MemConn>]
        ensures { result.now ≡ self.now.content.places }
    {
        &self.places
    }
}

/// Takes what is in a place out of it, where it and those behind it have a connection.
#[tactic(auto, using(crate::proofs::Places::next_has, crate::proofs::Places::rest_has))]
fn take_from(places: &mut Vec<Option<MemConn>>, place: usize) -> Option<MemConn>
    requires within { place < length places.old.items }
    requires full { All IsSome (drop place places.old.items) }
    ensures answer { slice_get places.old.items place ≡ Some result }
    ensures some { IsSome result }
    ensures after { places.new.items ≡ slice_set places.old.items place None }
    ensures rest { All IsSome (drop (place + 1) places.new.items) }
{
    places[place].take()
}

/// Fills the place of an index, counted from 1, where it is empty. Where all from a place on have a connection, they still do.
#[tactic(auto, using(crate::proofs::Places::filled_has))]
fn put_back(places: &mut Vec<Option<MemConn>>, index: u64, conn: MemConn)
    ensures empty { IsEmptyAt places.old.items index → places.new.items ≡ slice_set places.old.items (index - 1) (Some conn) }
    ensures other { ¬ IsEmptyAt places.old.items index → places.new.items ≡ places.old.items }
    ensures len { length places.new.items ≡ length places.old.items }
    ensures full { (given : ℕ) → All IsSome (drop given places.old.items) → All IsSome (drop given places.new.items) }
{
    let Some(place) = index.checked_sub(1) else {
        return;
    };
    let Ok(place) = usize::try_from(place) else {
        return;
    };
    if place < places.len() && places[place].is_none() {
        places[place] = Some(conn);
    }
}

impl Listener for MemListener {
    type Conn = MemConn;

    ghost accepts = { AcceptsInMemory };

    ghost puts_back = { PutsBackInMemory };

    ghost faults = { λ s. s.faults };

    ghost content = { λ s. Some s.content };

    fn accept(&mut self, _alloc: Global) -> Result<Option<MemConn>, IoFault> {
        let faults = self.faults;
        if self.plan.fails_next() {
            self.faults = faults.saturating_add(1);
            return Err(IoFault::Failed);
        }
        let given = self.given;
        if given == self.places.len() {
            return Ok(None);
        }
        match take_from(&mut self.places, given) {
            Some(conn) => {
                self.given = given + 1;
                Ok(Some(conn))
            }
            None => unreachable!(),
        }
    }

    fn give_back(&mut self, index: u64, conn: MemConn) {
        put_back(&mut self.places, index, conn);
    }
}
