//! A scripted guest as a player.

ghost use Rattle.std.specs.Prelude.{◌≡◌, [], true, false, None, IsTrue, IfOk};
ghost use Rattle.player.specs.Plays.{is_end_call};
ghost use Rattle.scripted_guest.specs.Script.{is_script, script_program, ScriptWants};
ghost use Rattle.scripted_guest.specs.Scripted.{ScriptPlays, Advances, stopped_turn, waits_in, is_over_in};

use crate::script::is_end_at;
use crate::turns::{next_turn, note, stopped_turn};
use cache_types::{Event, Items, Outcome, OuterReply, Trace};
use player::{Player, Turn};
use script_lines::Lines;
use std::alloc::{AllocError, Global};
use std::marker::Model;

/// A guest that makes Begin, its lines in order and End.
#[derive(Drop)]
pub struct Scripted {
    alloc: Global,
    lines: Lines,
    /// What its answered calls are worth to later lines.
    values: Vec<u64>,
    events: Vec<Event>,
    /// Its next call was given.
    given: bool,
    ended: bool,
    stopped: Option<Outcome>,
}

impl Model for Scripted {
    ghost use Rattle.scripted_guest.specs.Scripted.{State};

    ghost Value = { State };

    ghost view = { λ s. record { lines = s.lines; values = s.values; events = s.events; given = s.given; ended = s.ended; stopped = s.stopped } };
}

impl Scripted {
    /// A guest before its Begin. The lines are neither Begin nor End, and within the limits.
    pub fn new(alloc: Global, lines: Lines) -> Result<Scripted, AllocError>
        requires { IsTrue (is_script lines) }
        ensures plays { IfOk result (λ guest. ScriptPlays guest (script_program lines) []) }
        ensures stopped { IfOk result (λ guest. guest.stopped ≡ None) }
        ensures ended { IfOk result (λ guest. guest.ended ≡ false) }
    {
        Ok(Scripted {
            alloc,
            lines,
            values: Vec::new(alloc),
            events: Vec::new(alloc),
            given: false,
            ended: false,
            stopped: None,
        })
    }

    /// The turn of a guest that was stopped.
    fn end_with(&mut self, why: Outcome) -> Turn
        ensures turn { result ≡ stopped_turn self.old.values.items self.old.ended why }
        ensures guest { self.new ≡ record self.old { given = true } }
    {
        self.given = true;
        stopped_turn(self.values.as_slice(), self.ended, why)
    }

    /// The turn of a guest that wasn't stopped. Want of memory stops it.
    fn go_on(&mut self) -> Turn
        requires { self.old.stopped ≡ None }
        ensures { Advances self.old self.new result }
    {
        match next_turn(self.alloc, &self.lines, &mut self.values, &mut self.events) {
            Ok(turn) => {
                self.given = true;
                turn
            }
            Err(_) => {
                self.stopped = Some(Outcome::OutOfMemory);
                self.end_with(Outcome::OutOfMemory)
            }
        }
    }

    fn next(&mut self) -> Turn
        ensures { Advances self.old self.new result }
    {
        match self.stopped {
            None => self.go_on(),
            Some(why) => self.end_with(why),
        }
    }

    /// The call that waits is End.
    fn makes_end(&self) -> bool
        ensures { result ≡ is_end_call (waits_in self.now) }
    {
        if !self.given {
            return false;
        }
        match self.stopped {
            None => is_end_at(&self.lines, self.values.as_slice()),
            Some(_) => !self.values.is_empty() && !self.ended,
        }
    }
}

impl Player for Scripted {
    ghost Plays = { ScriptPlays };

    ghost MayWant = { ScriptWants };

    ghost stopped = { λ s. s.stopped };

    ghost ended = { λ s. s.ended };

    ghost waits = { waits_in };

    ghost over = { is_over_in };

    fn advance(&mut self) -> Turn {
        self.next()
    }

    fn answer(&mut self, reply: OuterReply) {
        self.ended = self.makes_end();
        self.given = false;
        if let OuterReply::Cache(told) = reply {
            note(&mut self.values, &mut self.events, &told);
        }
    }

    fn stop(&mut self, outcome: Outcome) {
        self.given = false;
        self.stopped = Some(outcome);
    }

    fn take_trace(&mut self) -> Trace {
        Items::of(std::mem::replace(&mut self.events, Vec::new(self.alloc)))
    }
}
