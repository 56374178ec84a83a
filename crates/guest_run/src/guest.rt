//! A module guest as a player.
ghost use Rattle.std.specs.Prelude.{◌≡◌, [], None, false, IfOk};
ghost use Rattle.edge_imports.specs.Links.{LinkedModule};
ghost use Rattle.player.specs.Plays.{Program};
ghost use Rattle.guest_run.specs.Services.{fuel_in, limit_in, settings_in, random_in, IsServiceOf, IsGuestProgram};
ghost use Rattle.guest_run.specs.Guests.{index_of, request_of, limit_of, stopped_of, ended_of, GuestPlays, GuestWants, waits_in, is_over_in};

use crate::phase::{Phase, set};
use crate::playing::{advanced, heard, makes_end, stopped};
use crate::service::Service;
use cache_types::{Event, Items, Octets, Outcome, OuterReply, Trace};
use edge_body::RequestHead;
use guest_calls::GuestTables;
use module_machine::Machine;
use player::{Player, Turn};
use std::alloc::{AllocError, Global};

/// A guest that answers one request.
#[derive(Drop)]
pub struct Guest<'a> {
    pub(crate) alloc: Global,
    pub(crate) service: &'a Service<'a>,
    pub(crate) index: u64,
    pub(crate) tables: GuestTables<'a>,
    /// Where its code stands, once its instance is made.
    pub(crate) machine: Option<Machine<'a>>,
    pub(crate) phase: Phase,
    /// The call of the phase was given.
    pub(crate) given: bool,
    pub(crate) stopped: Option<Outcome>,
    /// Its End was answered.
    pub(crate) ended: bool,
    pub(crate) events: Vec<Event>,
}

impl<'a> Guest<'a> {
    /// A guest before its Begin, which is to answer a request.
    pub fn new<'b>(
        alloc: Global,
        service: &'a Service<'b>,
        index: u64,
        head: RequestHead,
        body: Octets,
    ) -> Result<Guest<'a>, AllocError>
        ensures plays { IfOk result (λ guest. (l : LinkedModule) (program : Program) → IsServiceOf l service.now → IsGuestProgram l (settings_in service.now) (fuel_in service.now) (random_in service.now) index head body program → GuestPlays guest program []) }
        ensures stopped { IfOk result (λ guest. stopped_of guest ≡ None) }
        ensures ended { IfOk result (λ guest. ended_of guest ≡ false) }
        ensures index { IfOk result (λ guest. index_of guest ≡ index) }
        ensures request { IfOk result (λ guest. request_of guest ≡ head) }
        ensures limit { IfOk result (λ guest. limit_of guest ≡ limit_in service.now) }
    {
        let tables = GuestTables::new(alloc, service.settings, service.random, index, head, body)?;
        let events = Vec::new(alloc);
        Ok(Guest {
            alloc,
            service,
            index,
            tables,
            machine: None,
            phase: Phase::New,
            given: false,
            stopped: None,
            ended: false,
            events,
        })
    }

    /// Its number among the guests of a run.
    pub fn index(&self) -> u64
        ensures { result ≡ index_of self.now }
    {
        self.index
    }

    /// How long it may take, in nanoseconds.
    pub fn limit(&self) -> u64
        ensures { result ≡ limit_of self.now }
    {
        self.service.limit
    }

    /// The request that it answers, as it came.
    pub fn request(&self) -> &RequestHead
        ensures { result.now ≡ request_of self.now }
    {
        &self.tables.request
    }
}

impl<'a> Player for Guest<'a> {
    ghost Plays = { GuestPlays };

    ghost MayWant = { GuestWants };

    ghost stopped = { stopped_of };

    ghost ended = { ended_of };

    ghost waits = { λ g. waits_in g.given g.phase };

    ghost over = { λ g. is_over_in g.phase };

    fn advance(&mut self) -> Turn {
        advanced(self)
    }

    fn answer(&mut self, reply: OuterReply) {
        self.ended = makes_end(self.given, &self.phase);
        self.given = false;
        let phase = std::mem::replace(&mut self.phase, Phase::New);
        let phase = heard(phase, &mut self.events, reply);
        set(&mut self.phase, phase);
    }

    fn stop(&mut self, outcome: Outcome) {
        self.given = false;
        self.stopped = Some(outcome);
        let phase = std::mem::replace(&mut self.phase, Phase::New);
        let phase = stopped(phase, &mut self.events, outcome);
        set(&mut self.phase, phase);
    }

    fn take_trace(&mut self) -> Trace {
        Items::of(std::mem::replace(&mut self.events, Vec::new(self.alloc)))
    }
}
