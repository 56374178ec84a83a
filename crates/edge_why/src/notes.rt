//! What a good run file will surely meet: calls that are refused, and guests that are left waiting.

use crate::played::{Deed, Played};
use crate::reasons::{may_go_on, refusal, waits_for};
use cache_types::{Outcome, Reply};
use std::alloc::AllocError;
use std::fmt::Write;
use why_texts::{quote, spot_at};

/// The most lines that are told.
const MOST_TOLD: usize = 100;

/// `line 4: TEXT`.
fn show_line(out: &mut String, bytes: &[u8], number: usize) -> Result<(), AllocError> {
    write!(out, "line {number}: ")?;
    quote(out, spot_at(bytes, number).line)
}

/// How many entries a guest has before a place of the history.
fn entries_before(played: &Played, guest: usize, place: usize) -> usize {
    let name = match played.guests().get(guest) {
        Some(done) => done.guest,
        None => return 0,
    };
    let mut count = 0usize;
    for entry in played.entries().iter().take(place) {
        if entry.guest == name {
            count = count.saturating_add(1);
        }
    }
    count
}

/// The calls that were refused. Answers how many.
fn refused_notes(out: &mut String, bytes: &[u8], played: &Played) -> Result<usize, AllocError> {
    let mut told = 0usize;
    for row in &played.rows {
        let Deed::Made(place) = row.deed else {
            continue;
        };
        let is_refused = match played.entries().get(place) {
            Some(entry) => matches!(entry.reply, Reply::Refused),
            None => false,
        };
        if is_refused && told < MOST_TOLD {
            let line = entries_before(played, row.guest, place).saturating_sub(1);
            show_line(out, bytes, played.file_line(row.guest, line))?;
            out.push_str(" is refused: ")?;
            refusal(out, played, place, row.guest, line)?;
            out.push('\n')?;
            told = told.saturating_add(1);
        }
    }
    Ok(told)
}

/// Where the guest's last step had no answer: how many entries there were then.
fn waited_since(played: &Played, guest: usize) -> Option<usize> {
    let mut place = 0usize;
    let mut since = None;
    for row in &played.rows {
        if row.step == 0 {
            return since;
        }
        if let Deed::Made(made) = row.deed {
            place = made.saturating_add(1);
        }
        if row.guest == guest {
            since = match row.deed {
                Deed::Waited => Some(place),
                _ => None,
            };
        }
    }
    since
}

/// A guest that isn't over when the schedule is.
fn left_note(
    out: &mut String,
    bytes: &[u8],
    played: &Played,
    guest: usize,
) -> Result<(), AllocError> {
    let number = guest.saturating_add(1);
    let trace = match played.guests().get(guest) {
        Some(done) => done.trace.items().len(),
        None => 0,
    };
    if trace == 0 {
        return write!(
            out,
            "guest {number} never begins: the schedule has no step for it\n"
        );
    }
    // Its entries are its begin, those of its calls, and the end that was made for it.
    let made = trace.saturating_sub(2);
    let calls = match played.run.guests.items().get(guest) {
        Some(block) => block.items().len(),
        None => 0,
    };
    if made >= calls {
        return write!(
            out,
            "guest {number} made all its calls, but the schedule has no step left for its end\n"
        );
    }
    write!(out, "guest {number} is left at ")?;
    show_line(out, bytes, played.file_line(guest, made))?;
    let Some(since) = waited_since(played, guest) else {
        return out.push_str(": the schedule has no step left for it\n");
    };
    if may_go_on(played, guest, made, since) {
        return out.push_str(
            ": it waited at its last step; it may go on since, but the schedule has no step left for it\n",
        );
    }
    match waits_for(played, guest, made, played.stepped()) {
        None => out.push_str(": it waits\n"),
        Some(other) if other == guest => out.push_str(
            ": it waits for itself, so no schedule helps\n",
        ),
        Some(other) => {
            let other = other.saturating_add(1);
            write!(out, ": it waits for guest {other}\n")
        }
    }
}

fn ended_note(out: &mut String, number: usize, outcome: Outcome) -> Result<(), AllocError> {
    match outcome {
        Outcome::HistoryFull => write!(
            out,
            "guest {number} was stopped: entries and live guests exceed 1,000,000\n"
        ),
        Outcome::OutOfMemory => write!(out, "guest {number} was stopped: there was no memory\n"),
        _ => Ok(()),
    }
}

/// The notes on a run file that was played.
pub fn run_notes(out: &mut String, bytes: &[u8], played: &Played) -> Result<(), AllocError> {
    let refused = refused_notes(out, bytes, played)?;
    let mut guest = 0usize;
    let mut left = 0usize;
    for done in played.guests() {
        match done.outcome {
            Outcome::Returned => {}
            Outcome::Unscheduled if left < MOST_TOLD => {
                left_note(out, bytes, played, guest)?;
                left = left.saturating_add(1);
            }
            other => ended_note(out, guest.saturating_add(1), other)?,
        }
        guest = guest.saturating_add(1);
    }
    if refused == 0 && left == 0 {
        return out.push_str(
            "a good run file: no call is refused, and every guest comes to its end\n",
        );
    }
    Ok(())
}
