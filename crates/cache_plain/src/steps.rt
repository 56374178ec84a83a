//! One step: room, moment, reply and the entry that is appended.

ghost use Rattle.std.specs.Prelude.{◌≡◌, ◌||◌, not, IsTrue, IsOk, IfOk, OnOk, OnErr, vec_capacity};
ghost use Rattle.cache_types.specs.Entries.{newest_first, is_end, is_not_yet};
ghost use Rattle.cache_types.specs.Step.{IsCaller, MayCall, reply_after, stepped, history_after, is_full, WouldAppend};
ghost use Rattle.cache_log.specs.Kept.{IsKept};

use crate::answers::answer;
use cache_log::{
    append, entry_with, is_begin, is_end, is_full, is_not_yet, last_moment, make_room,
};
use cache_types::{CacheCall, Copied, Entry, Reply, StepFault, Stepped};
use std::alloc::{AllocError, Global};

/// The reply to a guest's call at a reading.
fn reply_after(
    alloc: Global,
    entries: &[Entry],
    guest: u64,
    reading: u64,
    call: &CacheCall,
) -> Result<Reply, AllocError>
    ensures { IfOk result (λ reply. reply ≡ reply_after (newest_first entries.now) guest reading call.now) }
{
    let guest = if is_begin(call) {
        entries.len() as u64 + 1
    } else {
        guest
    };
    answer(
        alloc,
        entries,
        guest,
        last_moment(entries).max(reading),
        call,
    )
}

/// The End of a live guest: its room was kept, so it has no refusal.
fn end(entries: &mut Vec<Entry>, live: &mut usize, guest: u64, reading: u64) -> Stepped
    requires kept { IsKept entries.old.items live.old (vec_capacity entries.old) }
    requires may { IsCaller (newest_first entries.old.items) guest CacheCall.End }
    ensures told { result ≡ stepped entries.old.items guest reading CacheCall.End }
    ensures appended { entries.new.items ≡ history_after entries.old.items guest reading CacheCall.End }
    ensures kept { IsKept entries.new.items live.new (vec_capacity entries.new) }
{
    let entry = entry_with(
        entries.as_slice(),
        guest,
        reading,
        CacheCall::End,
        Reply::Done,
    );
    let number = entry.number;
    append(entries, live, entry);
    Stepped {
        number,
        reply: Reply::Done,
    }
}

/// Makes one step over the entries.
pub fn step_over(
    entries: &mut Vec<Entry>,
    live: &mut usize,
    most: u64,
    guest: u64,
    reading: u64,
    call: &CacheCall,
) -> Result<Stepped, StepFault>
    requires kept { IsKept entries.old.items live.old (vec_capacity entries.old) }
    requires may { MayCall entries.old.items guest call.now }
    ensures told { IfOk result (λ told. told ≡ stepped entries.old.items guest reading call.now) }
    ensures appended { OnOk result (entries.new.items ≡ history_after entries.old.items guest reading call.now) }
    ensures unchanged { OnErr result (entries.new.items ≡ entries.old.items) }
    ensures room { IfOk result (λ told. IsTrue (is_not_yet told.reply || not (is_full (newest_first entries.old.items) most call.now))) }
    ensures full { result ≡ Err StepFault.Full → IsTrue (is_full (newest_first entries.old.items) most call.now) }
    ensures full_of_entry { result ≡ Err StepFault.Full → WouldAppend entries.old.items guest reading call.now }
    ensures end { IsTrue (is_end call.now) → IsOk result }
    ensures kept { IsKept entries.new.items live.new (vec_capacity entries.new) }
{
    if is_end(call) {
        return Ok(end(entries, live, guest, reading));
    }
    let alloc = *entries.allocator();
    let reply = reply_after(alloc, entries.as_slice(), guest, reading, call)?;
    if is_not_yet(&reply) {
        return Ok(Stepped {
            number: 0,
            reply: Reply::NotYet,
        });
    }
    if is_full(entries.as_slice(), *live, most, call) {
        return Err(StepFault::Full);
    }
    let told = reply.copy(alloc)?;
    let call = call.copy(alloc)?;
    make_room(entries, *live, &call)?;
    let entry = entry_with(entries.as_slice(), guest, reading, call, reply);
    let number = entry.number;
    append(entries, live, entry);
    Ok(Stepped {
        number,
        reply: told,
    })
}
