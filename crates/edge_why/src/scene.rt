//! What happened in a run, row by row, for a picture: what the row's guest did, and how each guest stands.

use crate::deeds::{deed_text, note_text, wait_text};
use crate::played::{Deed, Played, Row, entry_at};
use crate::reasons::{is_open, maker_of, name_in, object_of, waits_for, word_of};
use cache_types::{CacheCall, Entry, Reply};
use std::alloc::{AllocError, Global};

/// The most steps and guests that are drawn.
pub const MOST_ROWS: usize = 1000;

pub const MOST_GUESTS: usize = 40;

/// How a guest stands behind a row.
#[derive(Clone, Copy, PartialEq, Eq)]
pub enum Mark {
    /// It hasn't begun, or is over.
    Away,
    Live,
    Waits,
    /// It has to insert or to renew an object.
    Owes,
}

/// One step: what it did, in words, and how the guests stand behind it.
#[derive(Drop)]
pub struct Line {
    /// 0 behind the last step.
    pub step: usize,
    pub moment: u64,
    pub guest: usize,
    pub text: String,
    pub note: String,
    /// The entry's number, 0 where none was made.
    pub entry: u64,
    /// The guest whose bytes were read, or for which this one waits.
    pub other: Option<usize>,
    pub is_wait: bool,
    pub marks: Vec<Mark>,
}

/// A wait from one step to another, or to the end where that is 0.
#[derive(Drop)]
pub struct Wait {
    pub guest: usize,
    pub from: usize,
    pub to: usize,
    pub other: Option<usize>,
    pub word: &'static str,
}

#[derive(Drop)]
pub struct Scene {
    pub guests: usize,
    pub lines: Vec<Line>,
    pub waits: Vec<Wait>,
    /// Not all guests or steps are drawn.
    pub is_cut: bool,
}

/// How a guest stands: whether it began, is over, waits since a step, and how many obligations it has.
#[derive(Clone, Copy)]
struct Stand {
    began: bool,
    over: bool,
    waits: bool,
    owes: usize,
    /// Its entries so far.
    made: usize,
}

const FRESH: Stand = Stand {
    began: false,
    over: false,
    waits: false,
    owes: 0,
    made: 0,
};

fn mark_of(stand: Stand) -> Mark {
    if !stand.began || stand.over {
        Mark::Away
    } else if stand.waits {
        Mark::Waits
    } else if stand.owes > 0 {
        Mark::Owes
    } else {
        Mark::Live
    }
}

fn marks_of(alloc: Global, stands: &[Stand]) -> Result<Vec<Mark>, AllocError> {
    let mut marks = Vec::new(alloc);
    for stand in stands {
        marks.push(mark_of(*stand))?;
    }
    Ok(marks)
}

/// The obligation of a transaction is used or given up by this entry, at a place of the history.
fn frees(played: &Played, place: usize, entry: &Entry) -> bool {
    if matches!(entry.reply, Reply::Refused) {
        return false;
    }
    match entry.call {
        CacheCall::TxInsert { .. }
        | CacheCall::TxUpdate { .. }
        | CacheCall::TxCancel { .. }
        | CacheCall::Close { .. } => {
            match entry_at(played.entries(), name_in(&entry.call)) {
                Some(named) => is_open(played, place, named),
                None => false,
            }
        }
        _ => false,
    }
}

/// How its guest stands behind an entry.
fn behind(played: &Played, place: usize, entry: &Entry, stand: Stand) -> Stand {
    let mut next = stand;
    next.waits = false;
    next.made = stand.made.saturating_add(1);
    if frees(played, place, entry) {
        next.owes = stand.owes.saturating_sub(1);
    }
    match (&entry.call, &entry.reply) {
        (CacheCall::Begin, _) => next.began = true,
        (CacheCall::End, _) => next.over = true,
        (CacheCall::TxLookup { .. }, Reply::Got { bits, .. }) if *bits >= 8 => {
            next.owes = next.owes.saturating_add(1);
        }
        _ => {}
    }
    next
}

/// The guest whose bytes an entry gave.
fn giver_of(played: &Played, entry: &Entry) -> Option<usize> {
    match (&entry.call, &entry.reply) {
        (CacheCall::Read { hit, .. }, Reply::Bytes(_)) => maker_of(
            played,
            object_of(played.entries(), *hit),
        ),
        _ => None,
    }
}

/// A row without words.
fn empty_line(alloc: Global, row: Row, moment: u64) -> Line {
    Line {
        step: row.step,
        moment,
        guest: row.guest,
        text: String::new(alloc),
        note: String::new(alloc),
        entry: 0,
        other: None,
        is_wait: false,
        marks: Vec::new(alloc),
    }
}

/// The line of an entry.
fn made_line(line: &mut Line, played: &Played, place: usize) -> Result<(), AllocError> {
    if let Some(entry) = played.entries().get(place) {
        line.moment = entry.moment;
        line.entry = entry.number;
        line.other = giver_of(played, entry);
        deed_text(&mut line.text, entry)?;
        note_text(&mut line.note, played, place, entry)?;
    }
    Ok(())
}

/// The line of a wait.
fn wait_line(
    line: &mut Line,
    played: &Played,
    made: usize,
    place: usize,
) -> Result<(), AllocError> {
    let at = made.saturating_sub(1);
    line.is_wait = true;
    line.other = waits_for(played, line.guest, at, place);
    match played.line(line.guest, at) {
        Some(call) => wait_text(&mut line.text, &call.call, line.other),
        None => Ok(()),
    }
}

/// A wait begins, or one that began goes on.
fn begin_wait(
    waits: &mut Vec<Wait>,
    played: &Played,
    line: &Line,
    made: usize,
) -> Result<(), AllocError> {
    for wait in waits.iter() {
        if wait.guest == line.guest && wait.to == 0 {
            return Ok(());
        }
    }
    let word = match played.line(line.guest, made.saturating_sub(1)) {
        Some(call) => word_of(&call.call),
        None => "",
    };
    waits.push(Wait {
        guest: line.guest,
        from: line.step,
        to: 0,
        other: line.other,
        word,
    })?;
    Ok(())
}

/// The guest's wait, where it has one, ends at a step.
fn end_wait(waits: &mut Vec<Wait>, guest: usize, step: usize) {
    for wait in waits.iter_mut() {
        if wait.guest == guest && wait.to == 0 {
            wait.to = step;
        }
    }
}

/// One row: its line, and how its guest stands behind it.
fn take_row(
    scene: &mut Scene,
    stands: &mut Vec<Stand>,
    played: &Played,
    row: Row,
    place: usize,
) -> Result<(), AllocError> {
    let alloc = *scene.lines.allocator();
    let reading = match played.run.steps.items().get(row.step.saturating_sub(1)) {
        Some(step) => step.reading,
        None => 0,
    };
    let mut line = empty_line(alloc, row, reading);
    let stand = stands.get(row.guest).copied().unwrap_or(FRESH);
    let mut next = stand;
    match row.deed {
        Deed::Made(place) => {
            made_line(&mut line, played, place)?;
            if let Some(entry) = played.entries().get(place) {
                next = behind(played, place, entry, stand);
            }
            if row.step > 0 {
                end_wait(&mut scene.waits, row.guest, row.step);
            }
        }
        Deed::Waited => {
            wait_line(&mut line, played, stand.made, place)?;
            next.waits = true;
            begin_wait(&mut scene.waits, played, &line, stand.made)?;
        }
        Deed::Nothing => line.text.push_str("is over")?,
    }
    if let Some(slot) = stands.get_mut(row.guest) {
        *slot = next;
    }
    line.marks = marks_of(alloc, stands.as_slice())?;
    scene.lines.push(line)?;
    Ok(())
}

/// The scene of a run that was played.
pub fn scene_of(alloc: Global, played: &Played) -> Result<Scene, AllocError> {
    let count = played.guests().len();
    let mut stands = vec![in alloc; FRESH; count]?;
    let mut scene = Scene {
        guests: count.min(MOST_GUESTS),
        lines: Vec::new(alloc),
        waits: Vec::new(alloc),
        is_cut: count > MOST_GUESTS || played.rows.len() > MOST_ROWS,
    };
    let mut place = 0usize;
    for row in played.rows.iter().take(MOST_ROWS) {
        take_row(&mut scene, &mut stands, played, *row, place)?;
        if let Deed::Made(made) = row.deed {
            place = made.saturating_add(1);
        }
    }
    Ok(scene)
}
