//! The words of a picture: what a guest did, and what became of an object.

use crate::played::{Played, guest_named};
use crate::reasons::{is_settled, maker_of, object_of};
use cache_types::{CacheCall, Entry, Octets, Reply};
use std::alloc::AllocError;
use std::fmt::Write;
use why_texts::show_value;

/// The most bytes of a body or key that are shown.
const SHOWN: usize = 12;

/// A word and a key.
fn with_key(out: &mut String, word: &str, key: &Octets) -> Result<(), AllocError> {
    out.push_str(word)?;
    out.push(' ')?;
    show_value(out, key.bytes(), SHOWN)
}

/// What the call is, without its answer.
fn call_text(out: &mut String, call: &CacheCall) -> Result<(), AllocError> {
    match call {
        CacheCall::Begin => out.push_str("begin"),
        CacheCall::Lookup { key, .. } => with_key(out, "lookup", key),
        CacheCall::TxLookup { key, .. } => with_key(out, "txlookup", key),
        CacheCall::Insert { key, .. } => with_key(out, "insert", key),
        CacheCall::TxInsert { .. } => out.push_str("txinsert"),
        CacheCall::TxUpdate { .. } => out.push_str("txupdate"),
        CacheCall::TxCancel { .. } => out.push_str("txcancel"),
        CacheCall::Close { .. } => out.push_str("close"),
        CacheCall::Write { piece, .. } => with_key(out, "write", piece),
        CacheCall::Finish { .. } => out.push_str("finish"),
        CacheCall::Abandon { .. } => out.push_str("abandon"),
        CacheCall::Read { place, .. } => write!(out, "read {place}.."),
        CacheCall::Purge { key, soft } => {
            with_key(out, "purge", key)?;
            out.push_str(if *soft { " soft" } else { " hard" })
        }
        CacheCall::End => out.push_str("end"),
    }
}

/// What the bits of a lookup say.
fn state_text(bits: u8) -> &'static str {
    match bits {
        0 => " ─► nothing",
        3 => " ─► fresh",
        5 => " ─► expired",
        7 => " ─► stale",
        8 => " ─► MUST INSERT",
        13 => " ─► expired, MUST RENEW",
        15 => " ─► stale, MUST RENEW",
        _ => "",
    }
}

/// What a guest did: the call and its answer.
pub fn deed_text(out: &mut String, entry: &Entry) -> Result<(), AllocError> {
    call_text(out, &entry.call)?;
    match &entry.reply {
        Reply::Got { bits, .. } => out.push_str(state_text(*bits)),
        Reply::Refused => out.push_str(" ─► refused"),
        Reply::Short => out.push_str(" ─► too short"),
        Reply::TooLong => out.push_str(" ─► too long"),
        Reply::Ended => out.push_str(" ─► ended"),
        Reply::Failed => out.push_str(" ─► failed"),
        Reply::Bytes(bytes) => {
            out.push_str(" ◄══ ")?;
            show_value(out, bytes.bytes(), SHOWN)
        }
        _ => Ok(()),
    }
}

/// A call that waits.
pub fn wait_text(
    out: &mut String,
    call: &CacheCall,
    other: Option<usize>,
) -> Result<(), AllocError> {
    call_text(out, call)?;
    match other {
        None => out.push_str(" ┄ waits"),
        Some(other) => {
            let other = other.saturating_add(1);
            write!(out, " ┄ waits for {other}")
        }
    }
}

/// The objects that a guest's end abandons.
fn left_text(
    out: &mut String,
    played: &Played,
    place: usize,
    guest: u64,
) -> Result<(), AllocError> {
    for entry in played.entries().iter().take(place) {
        if entry.guest == guest
            && matches!(entry.reply, Reply::Made)
            && !is_settled(played.entries(), place, entry.number)
        {
            let number = entry.number;
            write!(out, "└ object {number} abandoned ")?;
        }
    }
    Ok(())
}

/// What was found.
fn hit_text(out: &mut String, reply: &Reply) -> Result<(), AllocError> {
    let Reply::Got { hit: Some(hit), .. } = reply else {
        return Ok(());
    };
    let object = hit.object;
    let age = hit.age;
    let most = hit.max_age;
    write!(out, "object {object}, age {age} of {most}")
}

/// From whom to whom bytes of an object went.
fn given_text(
    out: &mut String,
    played: &Played,
    object: u64,
    reader: u64,
) -> Result<(), AllocError> {
    let from = maker_of(played, object).unwrap_or(0).saturating_add(1);
    let to = guest_named(played.guests(), reader)
        .unwrap_or(0)
        .saturating_add(1);
    write!(out, "object {object}: guest {from} ═► guest {to}")
}

/// What became of an object by the entry at a place.
pub fn note_text(
    out: &mut String,
    played: &Played,
    place: usize,
    entry: &Entry,
) -> Result<(), AllocError> {
    let number = entry.number;
    match (&entry.call, &entry.reply) {
        (_, Reply::Made) => write!(out, "┌ object {number}"),
        (CacheCall::Write { object, piece }, Reply::Done) => {
            write!(out, "│ object {object}: ")?;
            show_value(out, piece.bytes(), SHOWN)
        }
        (CacheCall::Finish { object }, Reply::Done) => write!(out, "└ object {object} whole"),
        (CacheCall::Finish { object }, Reply::Short) => write!(out, "└ object {object} abandoned"),
        (CacheCall::Abandon { object }, Reply::Done) => write!(out, "└ object {object} abandoned"),
        (CacheCall::TxUpdate { tx, .. }, Reply::Done) => {
            let object = object_of(played.entries(), *tx);
            write!(out, "object {object} renewed")
        }
        (CacheCall::Read { hit, .. }, Reply::Bytes(_)) => {
            given_text(out, played, object_of(played.entries(), *hit), entry.guest)
        }
        (CacheCall::End, _) => left_text(out, played, place, entry.guest),
        _ => hit_text(out, &entry.reply),
    }
}
