//! What the lines of a journal said so far, and with one more.

ghost use Rattle.std.specs.Prelude.{◌≡◌};
ghost use Rattle.edge_words.specs.Reading.{Gives, words_in};
ghost use Rattle.journal_reader.specs.Machine.{Progress, Entries, seen, after_blocks, after_events, after_line, finished, machine};
ghost use Rattle.journal_reader.specs.Machine as spec;

use crate::journal::{Guests, Journal};
use crate::read_entry::entry;
use crate::read_event::event;
use crate::read_numbers::{number, numbers};
use crate::read_outcome::outcome_of;
use cache_types::{Done, Entry, Event, History, Items};
use edge_words::{LineFault, Words};
use line_reader::LineMachine;
use std::alloc::Global;

/// Entries and closed blocks.
#[derive(Drop)]
pub struct Told {
    pub entries: Vec<Entry>,
    pub guests: Vec<Done>,
}

/// A block that is not over.
#[derive(Drop)]
pub struct Opened {
    pub index: u64,
    pub guest: u64,
    pub trace: Vec<Event>,
}

/// What the lines of a journal said so far.
#[derive(Drop)]
pub enum Stage {
    Start,
    Entries(Vec<Entry>),
    Block(Told, Opened),
    Between(Told),
    Over(Told),
}

fn is_above(guests: &[Done], index: u64) -> bool
    ensures { result ≡ spec.is_above guests.now index }
{
    let count = guests.len();
    if count == 0 {
        return true;
    }
    guests[count - 1].index < index
}

fn open_block(alloc: Global, told: Told, words: Words<'_>) -> Result<Stage, LineFault>
    ensures { Gives seen result (spec.opens told.entries.items told.guests.items words.entry) }
{
    let (index, guest) = numbers(words)?;
    if is_above(&told.guests, index) {
        let trace = Vec::new(alloc);
        Ok(Stage::Block(
            told,
            Opened {
                index,
                guest,
                trace,
            },
        ))
    } else {
        Err(LineFault::Bad)
    }
}

fn close_journal(told: Told, words: Words<'_>) -> Result<Stage, LineFault>
    ensures { Gives seen result (spec.closes told.entries.items told.guests.items words.entry) }
{
    let number = number(words)?;
    if number == told.entries.len() as u64 {
        Ok(Stage::Over(told))
    } else {
        Err(LineFault::Bad)
    }
}

fn after_entries(alloc: Global, mut entries: Vec<Entry>, line: &[u8]) -> Result<Stage, LineFault>
    ensures { Gives seen result (after_line (Entries entries.items) line.now) }
{
    let (name, words) = Words::of(line).word()?;
    if name == b"guest".as_slice() {
        let guests = Vec::new(alloc);
        return open_block(alloc, Told { entries, guests }, words);
    }
    if name == b"end".as_slice() {
        let guests = Vec::new(alloc);
        return close_journal(Told { entries, guests }, words);
    }
    let entry = entry(alloc, Words::of(line))?;
    entries.push(entry)?;
    Ok(Stage::Entries(entries))
}

fn between(alloc: Global, told: Told, line: &[u8]) -> Result<Stage, LineFault>
    ensures { Gives seen result (after_blocks told.entries.items told.guests.items None (words_in line.now)) }
{
    let (name, words) = Words::of(line).word()?;
    if name == b"guest".as_slice() {
        return open_block(alloc, told, words);
    }
    if name == b"end".as_slice() {
        return close_journal(told, words);
    }
    Err(LineFault::Bad)
}

fn over(mut told: Told, opened: Opened, words: Words<'_>) -> Result<Stage, LineFault>
    ensures { Gives seen result (spec.over told.entries.items told.guests.items (opened.index, opened.guest) opened.trace.items words.entry) }
{
    let outcome = outcome_of(words)?;
    let Opened {
        index,
        guest,
        trace,
    } = opened;
    told.guests.push(Done {
        index,
        guest,
        trace: Items::of(trace),
        outcome,
    })?;
    Ok(Stage::Between(told))
}

fn in_block(alloc: Global, told: Told, mut opened: Opened, line: &[u8]) -> Result<Stage, LineFault>
    ensures { Gives seen result (after_events told.entries.items told.guests.items (opened.index, opened.guest) opened.trace.items (words_in line.now)) }
{
    let (name, words) = Words::of(line).word()?;
    if name == b"over".as_slice() {
        return over(told, opened, words);
    }
    let event = event(alloc, name, words)?;
    opened.trace.push(event)?;
    Ok(Stage::Block(told, opened))
}

/// What the lines said with one more.
fn next_stage(alloc: Global, stage: Stage, line: &[u8]) -> Result<Stage, LineFault>
    ensures { Gives seen result (after_line (seen stage) line.now) }
{
    match stage {
        Stage::Start => {
            if line == b"edge-journal 1".as_slice() {
                Ok(Stage::Entries(Vec::new(alloc)))
            } else {
                Err(LineFault::Bad)
            }
        }
        Stage::Entries(entries) => after_entries(alloc, entries, line),
        Stage::Block(told, opened) => in_block(alloc, told, opened, line),
        Stage::Between(told) => between(alloc, told, line),
        Stage::Over(_) => Err(LineFault::Bad),
    }
}

/// The journal, where all was said and nothing stands behind it.
fn journal_of(stage: Stage, rest: &[u8]) -> Option<Journal>
    ensures { result ≡ finished (seen stage) rest.now }
{
    match stage {
        Stage::Over(told) => {
            if rest.is_empty() {
                Some(Journal {
                    history: History::of(told.entries),
                    guests: Guests::of(told.guests),
                })
            } else {
                None
            }
        }
        _ => None,
    }
}

impl LineMachine for Stage {
    type Value = Journal;

    ghost Said = { Progress };

    ghost said = { seen };

    ghost machine = { machine };

    ghost Stands = { λ _. Unit {0} };

    fn start() -> Self {
        Stage::Start
    }

    fn next(self, alloc: Global, line: &[u8]) -> Result<Self, LineFault> {
        next_stage(alloc, self, line)
    }

    fn finish(self, rest: &[u8]) -> Option<Journal> {
        journal_of(self, rest)
    }
}
