//! Why a call was refused, and for whom a call waits.

use crate::played::{Played, entry_at, guest_named};
use cache_types::{CacheCall, Entry, Fields, Octets, Reply, Rule};
use script_lines::Named;
use std::alloc::AllocError;
use std::fmt::Write;

/// The number of the entry that a call names.
pub fn name_in(call: &CacheCall) -> u64 {
    match call {
        CacheCall::TxInsert { tx, .. } | CacheCall::TxUpdate { tx, .. } => *tx,
        CacheCall::TxCancel { tx } | CacheCall::Close { tx } => *tx,
        CacheCall::Write { object, .. } => *object,
        CacheCall::Finish { object } | CacheCall::Abandon { object } => *object,
        CacheCall::Read { hit, .. } => *hit,
        _ => 0,
    }
}

/// The word of a call in run files.
pub fn word_of(call: &CacheCall) -> &'static str {
    match call {
        CacheCall::Begin => "begin",
        CacheCall::Lookup { .. } => "lookup",
        CacheCall::TxLookup { .. } => "txlookup",
        CacheCall::Insert { .. } => "insert",
        CacheCall::TxInsert { .. } => "txinsert",
        CacheCall::TxUpdate { .. } => "txupdate",
        CacheCall::TxCancel { .. } => "txcancel",
        CacheCall::Close { .. } => "close",
        CacheCall::Write { .. } => "write",
        CacheCall::Finish { .. } => "finish",
        CacheCall::Abandon { .. } => "abandon",
        CacheCall::Read { .. } => "read",
        CacheCall::Purge { .. } => "purge",
        CacheCall::End => "end",
    }
}

fn is_refused(reply: &Reply) -> bool {
    matches!(reply, Reply::Refused)
}

/// An entry that ends the obligation of a transaction, or closes its lookup.
fn ends(entry: &Entry, tx: u64) -> bool {
    !is_refused(&entry.reply)
        && match &entry.call {
            CacheCall::TxInsert { .. }
            | CacheCall::TxUpdate { .. }
            | CacheCall::TxCancel { .. }
            | CacheCall::Close { .. } => name_in(&entry.call) == tx,
            _ => false,
        }
}

/// An entry after which an object is neither written nor finished.
fn settles(entry: &Entry, object: u64) -> bool {
    !is_refused(&entry.reply)
        && match &entry.call {
            CacheCall::Finish { .. } | CacheCall::Abandon { .. } => name_in(&entry.call) == object,
            _ => false,
        }
}

/// The first entry before the one at a place that ends a transaction.
fn end_of(entries: &[Entry], place: usize, tx: u64) -> Option<&Entry> {
    for entry in entries.iter().take(place) {
        if ends(entry, tx) {
            return Some(entry);
        }
    }
    None
}

fn settled_by(entries: &[Entry], place: usize, object: u64) -> Option<&Entry> {
    for entry in entries.iter().take(place) {
        if settles(entry, object) {
            return Some(entry);
        }
    }
    None
}

/// The object was finished or abandoned by a call before the one at a place.
pub fn is_settled(entries: &[Entry], place: usize, object: u64) -> bool {
    settled_by(entries, place, object).is_some()
}

fn says_of(out: &mut String, entry: &Entry, what: &str) -> Result<(), AllocError> {
    let number = entry.number;
    let word = word_of(&entry.call);
    write!(out, "entry {number} is `{word}`; {what}")
}

/// Why an object can't be written, finished or abandoned.
fn object_reason(
    out: &mut String,
    entries: &[Entry],
    place: usize,
    named: &Entry,
) -> Result<(), AllocError> {
    if !matches!(named.reply, Reply::Made) {
        return says_of(
            out,
            named,
            "wanted is the `insert` or `txinsert` that made the object",
        );
    }
    let object = named.number;
    match settled_by(entries, place, object) {
        Some(entry) => {
            let word = word_of(&entry.call);
            let number = entry.number;
            write!(
                out,
                "object {object} is settled already, by the `{word}` of entry {number}"
            )
        }
        None => write!(out, "object {object} can't be written any more"),
    }
}

/// Why a transaction can't insert, renew or cancel.
fn obligation_reason(
    out: &mut String,
    entries: &[Entry],
    place: usize,
    named: &Entry,
) -> Result<(), AllocError> {
    let Reply::Got { bits, hit } = &named.reply else {
        return says_of(
            out,
            named,
            "wanted is a `txlookup` that was told to insert or renew",
        );
    };
    if !matches!(named.call, CacheCall::TxLookup { .. }) {
        return says_of(
            out,
            named,
            "a plain lookup has no obligation: look it up by `txlookup`",
        );
    }
    let number = named.number;
    if *bits < 8 {
        return write!(
            out,
            "the `txlookup` of entry {number} wasn't told to insert or renew (got {bits}, without the bit 8)"
        );
    }
    if let Some(entry) = end_of(entries, place, number) {
        let word = word_of(&entry.call);
        let by = entry.number;
        return write!(
            out,
            "the obligation of entry {number} is gone since the `{word}` of entry {by}"
        );
    }
    if hit.is_none() {
        return write!(
            out,
            "the `txlookup` of entry {number} found nothing to renew: use `txinsert`"
        );
    }
    write!(out, "the obligation of entry {number} is gone")
}

fn read_reason(out: &mut String, named: &Entry) -> Result<(), AllocError> {
    match &named.reply {
        Reply::Got { .. } => {
            let number = named.number;
            write!(out, "the lookup of entry {number} found nothing to read")
        }
        _ => says_of(
            out,
            named,
            "wanted is a lookup that found an object, or an insertion",
        ),
    }
}

/// The entry before the one at a place that closed a lookup.
fn closed_by(entries: &[Entry], place: usize, number: u64) -> Option<&Entry> {
    for entry in entries.iter().take(place) {
        if matches!(entry.call, CacheCall::Close { .. }) && ends(entry, number) {
            return Some(entry);
        }
    }
    None
}

fn close_reason(
    out: &mut String,
    entries: &[Entry],
    place: usize,
    named: &Entry,
) -> Result<(), AllocError> {
    if !matches!(
        named.call,
        CacheCall::Lookup { .. } | CacheCall::TxLookup { .. }
    ) {
        return says_of(out, named, "only a lookup is closed");
    }
    let number = named.number;
    match closed_by(entries, place, number) {
        Some(entry) => {
            let by = entry.number;
            write!(
                out,
                "the lookup of entry {number} is closed already, by entry {by}"
            )
        }
        None => write!(out, "the lookup of entry {number} is closed already"),
    }
}

/// Why the number 0 stands for what a guest's line names, at a place from 0.
fn nothing_reason(
    out: &mut String,
    played: &Played,
    guest: usize,
    line: usize,
) -> Result<(), AllocError> {
    let named = match played.line(guest, line) {
        Some(line) => line.named,
        None => Named::Nothing,
    };
    let Named::Line(number) = named else {
        return out.push_str("no entry has the number 0");
    };
    let word = match played.line(guest, (number as usize).saturating_sub(1)) {
        Some(line) => word_of(&line.call),
        None => "",
    };
    match word {
        "txinsert" => write!(
            out,
            "`@{number}` is a `txinsert` that was refused itself, so it made nothing"
        ),
        _ => write!(
            out,
            "`@{number}` is `{word}`, which makes and finds nothing that could be named"
        ),
    }
}

/// Why the entry at a place was refused, which is that of a guest's line at a place from 0.
pub fn refusal(
    out: &mut String,
    played: &Played,
    place: usize,
    guest: usize,
    line: usize,
) -> Result<(), AllocError> {
    let entries = played.entries();
    let Some(entry) = entries.get(place) else {
        return Ok(());
    };
    let name = name_in(&entry.call);
    if name == 0 {
        return nothing_reason(out, played, guest, line);
    }
    let named = match entry_at(entries, name) {
        Some(named) if named.number < entry.number => named,
        _ => return write!(out, "there was no entry {name} yet"),
    };
    if named.guest != entry.guest {
        let owner = guest_named(played.guests(), named.guest)
            .unwrap_or(0)
            .saturating_add(1);
        return write!(
            out,
            "entry {name} is guest {owner}'s; a guest can use its own entries only"
        );
    }
    match entry.call {
        CacheCall::Write { .. } | CacheCall::Finish { .. } | CacheCall::Abandon { .. } => {
            object_reason(out, entries, place, named)
        }
        CacheCall::Read { .. } => read_reason(out, named),
        CacheCall::Close { .. } => close_reason(out, entries, place, named),
        _ => obligation_reason(out, entries, place, named),
    }
}

/// The object that a lookup found, or that an insertion made.
pub fn object_of(entries: &[Entry], number: u64) -> u64 {
    match entry_at(entries, number) {
        Some(entry) => match &entry.reply {
            Reply::Made => number,
            Reply::Got { hit: Some(hit), .. } => hit.object,
            _ => 0,
        },
        None => 0,
    }
}

/// The guest that made an object.
pub fn maker_of(played: &Played, object: u64) -> Option<usize> {
    guest_named(played.guests(), entry_at(played.entries(), object)?.guest)
}

/// The key of an insertion, and what it varies by.
fn inserted<'a>(played: &'a Played, entry: &'a Entry) -> Option<(&'a Octets, &'a Rule)> {
    match &entry.call {
        CacheCall::Insert { key, writing, .. } => Some((key, &writing.rule)),
        CacheCall::TxInsert { tx, writing } if matches!(entry.reply, Reply::Made) => Some((
            played.key_of(*tx)?,
            &writing.rule,
        )),
        _ => None,
    }
}

/// What the newest insertion under a key, before a place of the history, varies by.
fn newest_rule<'a>(played: &'a Played, place: usize, key: &Octets) -> Option<&'a Rule> {
    let (past, _) = played.entries().split_at_checked(place)?;
    for entry in past.iter().rev() {
        if let Some((of, rule)) = inserted(played, entry) {
            if of.bytes() == key.bytes() {
                return Some(rule);
            }
        }
    }
    None
}

/// The value of the header with this name that stands behind so many others of the name.
fn value_at<'a>(fields: &'a Fields, name: &Octets, skipped: usize) -> Option<&'a Octets> {
    let mut before = 0usize;
    for field in fields.items() {
        if field.name.bytes() == name.bytes() {
            if before == skipped {
                return Some(&field.value);
            }
            before = before.saturating_add(1);
        }
    }
    None
}

/// The values of a header agree in both requests, of which each has 100 headers at most.
fn agrees(name: &Octets, ones: &Fields, others: &Fields) -> bool {
    for skipped in 0..101usize {
        match (
            value_at(ones, name, skipped),
            value_at(others, name, skipped),
        ) {
            (None, None) => return true,
            (Some(one), Some(other)) if one.bytes() == other.bytes() => {}
            _ => return false,
        }
    }
    true
}

fn is_same_variant(rule: Option<&Rule>, ones: &Fields, others: &Fields) -> bool {
    let Some(rule) = rule else {
        return true;
    };
    for name in rule.items() {
        if !agrees(name, ones, others) {
            return false;
        }
    }
    true
}

/// The guest that has the obligation which a transaction's lookup would have, at a place of the history: for the same key
/// and the same variant by the key's newest rule.
fn holder_of(played: &Played, place: usize, key: &Octets, headers: &Fields) -> Option<usize> {
    let rule = newest_rule(played, place, key);
    let mut holder = None;
    for entry in played.entries().iter().take(place) {
        let CacheCall::TxLookup {
            key: of,
            headers: with,
        } = &entry.call
        else {
            continue;
        };
        if of.bytes() == key.bytes()
            && is_same_variant(rule, headers, with)
            && is_open(played, place, entry)
        {
            holder = guest_named(played.guests(), entry.guest);
        }
    }
    holder
}

/// A lookup was told to insert or renew, and has that obligation still at a place of the history.
pub fn is_open(played: &Played, place: usize, entry: &Entry) -> bool {
    let Reply::Got { bits, .. } = &entry.reply else {
        return false;
    };
    if *bits < 8 || end_of(played.entries(), place, entry.number).is_some() {
        return false;
    }
    for later in played.entries().iter().take(place) {
        if matches!(later.call, CacheCall::End) && later.guest == entry.guest {
            return false;
        }
    }
    true
}

/// The guest for which a guest's call waits, its line at a place from 0, where so many entries stand.
pub fn waits_for(played: &Played, guest: usize, line: usize, place: usize) -> Option<usize> {
    let line = played.line(guest, line)?;
    match &line.call {
        CacheCall::Read { .. } => {
            maker_of(
                played,
                object_of(played.entries(), played.named(guest, line.named)),
            )
        }
        CacheCall::TxLookup { key, headers } => holder_of(played, place, key, headers),
        _ => None,
    }
}

/// An entry that adds to an object, or ends its body.
fn moves(entry: &Entry, object: u64, maker: u64) -> bool {
    match &entry.call {
        CacheCall::Write { .. } | CacheCall::Finish { .. } | CacheCall::Abandon { .. } => {
            name_in(&entry.call) == object && !is_refused(&entry.reply)
        }
        CacheCall::End => entry.guest == maker,
        _ => false,
    }
}

/// The call of a guest's line, which waited where there were so many entries, needn't wait behind the last step.
pub fn may_go_on(played: &Played, guest: usize, line: usize, since: usize) -> bool {
    let stepped = played.stepped();
    let Some(line) = played.line(guest, line) else {
        return false;
    };
    match &line.call {
        CacheCall::TxLookup { key, headers } => holder_of(played, stepped, key, headers).is_none(),
        CacheCall::Read { .. } => {
            let object = object_of(played.entries(), played.named(guest, line.named));
            let Some(made) = entry_at(played.entries(), object) else {
                return false;
            };
            for entry in played.entries().iter().take(stepped).skip(since) {
                if moves(entry, object, made.guest) {
                    return true;
                }
            }
            false
        }
        _ => false,
    }
}
