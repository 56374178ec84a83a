//! A run that was played: what each step of the schedule did, a wait among them, which leaves no line in a journal.

use cache_types::{CacheCall, Done, Entry, Event, Octets, Reply};
use edge_outside::{MemFiles, MemSink, NamedFile, NoLink};
use edge_top::host;
use journal_reader::{Journal, read_journal};
use run_files::Run;
use script_lines::{Line, Named};
use std::alloc::{AllocError, Global};

/// What a step of the schedule did.
#[derive(Clone, Copy, PartialEq, Eq)]
pub enum Deed {
    /// The entry at this place of the history was made.
    Made(usize),
    /// The guest's call had no answer yet.
    Waited,
    /// The guest was over.
    Nothing,
}

/// A step: its number from 1, or 0 behind the last one; the place of its guest among the guests; what it did.
#[derive(Clone, Copy, PartialEq, Eq)]
pub struct Row {
    pub step: usize,
    pub guest: usize,
    pub deed: Deed,
}

/// A run and what it led to.
#[derive(Drop)]
pub struct Played {
    pub run: Run,
    pub journal: Journal,
    pub rows: Vec<Row>,
}

/// The journal that `edge` writes of these bytes.
fn journal_of(alloc: Global, bytes: &[u8]) -> Result<Option<Journal>, AllocError> {
    let mut named = Vec::new(alloc);
    named.push(NamedFile {
        name: String::from_str(alloc, "run")?,
        bytes: bytes.to_vec(alloc)?,
    })?;
    let mut files = MemFiles::new(alloc, named, Vec::new(alloc));
    let mut out = MemSink::new(alloc, Vec::new(alloc));
    let words = vec![in alloc;
        String::from_str(alloc, "script")?,
        String::from_str(alloc, "run")?,
    ]?;
    let _ = host(
        alloc,
        words.as_slice(),
        &mut files,
        &mut out,
        &mut NoLink::new(),
    );
    Ok(read_journal(alloc, out.bytes()).ok())
}

/// The place of the guest with this name.
pub fn guest_named(guests: &[Done], name: u64) -> Option<usize> {
    let mut place = 0usize;
    for guest in guests {
        if guest.guest == name {
            return Some(place);
        }
        place = place.saturating_add(1);
    }
    None
}

/// The entry with this number.
pub fn entry_at(entries: &[Entry], number: u64) -> Option<&Entry> {
    entries.get((number as usize).checked_sub(1)?)
}

/// What one step did, where the entry at a place is the next one and the newest moment is this one.
fn deed_of(
    entries: &[Entry],
    guest: &Done,
    reading: u64,
    next: usize,
    newest: u64,
    made: usize,
) -> Deed {
    if made >= guest.trace.items().len() {
        return Deed::Nothing;
    }
    match entries.get(next) {
        Some(entry) if entry.guest == guest.guest && entry.moment == newest.max(reading) =>
            Deed::Made(next),
        _ => Deed::Waited,
    }
}

/// One more entry of the guest at a place.
fn count(made: &mut Vec<usize>, guest: usize) {
    if let Some(made) = made.get_mut(guest) {
        *made = made.saturating_add(1);
    }
}

/// What each step did. An entry is the step's where it is its guest's and has its moment: had the step waited instead,
/// a later step of the same guest at the same moment, over the same entries, would have waited too.
fn rows_of(alloc: Global, run: &Run, journal: &Journal) -> Result<Vec<Row>, AllocError> {
    let entries = journal.history.entries();
    let guests = journal.guests.items();
    let mut rows = Vec::new(alloc);
    let mut made = vec![in alloc; 0usize; guests.len()]?;
    let mut next = 0usize;
    let mut newest = 0u64;
    let mut number = 0usize;
    for step in run.steps.items() {
        number = number.saturating_add(1);
        let place = (step.player as usize).saturating_sub(1);
        let Some(guest) = guests.get(place) else {
            continue;
        };
        let so_far = made.get(place).copied().unwrap_or(0);
        let deed = deed_of(entries, guest, step.reading, next, newest, so_far);
        if let Deed::Made(_) = deed {
            newest = newest.max(step.reading);
            next = next.saturating_add(1);
            count(&mut made, place);
        }
        rows.push(Row {
            step: number,
            guest: place,
            deed,
        })?;
    }
    close(&mut rows, entries, guests, next)?;
    Ok(rows)
}

/// The ends behind the last step.
fn close(
    rows: &mut Vec<Row>,
    entries: &[Entry],
    guests: &[Done],
    first: usize,
) -> Result<(), AllocError> {
    for place in first..entries.len() {
        let guest = match entries.get(place) {
            Some(entry) => guest_named(guests, entry.guest).unwrap_or(0),
            None => 0,
        };
        rows.push(Row {
            step: 0,
            guest,
            deed: Deed::Made(place),
        })?;
    }
    Ok(())
}

/// Plays a run file as `edge script` does. Nothing where memory ran out in it.
pub fn play(alloc: Global, bytes: &[u8], run: Run) -> Result<Option<Played>, AllocError> {
    let Some(journal) = journal_of(alloc, bytes)? else {
        return Ok(None);
    };
    let rows = rows_of(alloc, &run, &journal)?;
    Ok(Some(Played { run, journal, rows }))
}

impl Played {
    pub fn entries(&self) -> &[Entry] {
        self.journal.history.entries()
    }

    pub fn guests(&self) -> &[Done] {
        self.journal.guests.items()
    }

    /// How many entries stand when the last step was made, before the ends of those who aren't over.
    pub fn stepped(&self) -> usize {
        let mut count = 0usize;
        for row in &self.rows {
            if row.step > 0 && row.deed != Deed::Waited && row.deed != Deed::Nothing {
                count = count.saturating_add(1);
            }
        }
        count
    }

    /// The line of a guest's program at a place from 0.
    pub fn line(&self, guest: usize, place: usize) -> Option<&Line> {
        self.run.guests.items().get(guest)?.items().get(place)
    }

    /// The number of the file's line that has a guest's call at a place from 0.
    pub fn file_line(&self, guest: usize, place: usize) -> usize {
        let mut number = 2usize;
        for block in self.run.guests.items().iter().take(guest) {
            number = number.saturating_add(block.items().len()).saturating_add(1);
        }
        number.saturating_add(place).saturating_add(1)
    }

    /// The number that a line of this guest names, once the calls before it were answered.
    pub fn named(&self, guest: usize, named: Named) -> u64 {
        match named {
            Named::Nothing => 0,
            Named::Number(number) => number,
            Named::Line(line) => self.value_of(guest, line).unwrap_or(0),
        }
    }

    fn value_of(&self, guest: usize, line: u64) -> Option<u64> {
        let event = self.guests().get(guest)?.trace.items().get(line as usize)?;
        let Event::Entry(number) = event else {
            return None;
        };
        match entry_at(self.entries(), *number)?.reply {
            Reply::Got { .. } | Reply::Made => Some(*number),
            _ => None,
        }
    }

    /// The key that a transaction's lookup asked for.
    pub fn key_of(&self, tx: u64) -> Option<&Octets> {
        match &entry_at(self.entries(), tx)?.call {
            CacheCall::TxLookup { key, .. } | CacheCall::Lookup { key, .. } => Some(key),
            _ => None,
        }
    }
}
