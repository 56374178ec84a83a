//! One step: reply, room, the parts told, and the entry that is appended.

ghost use Rattle.std.specs.Prelude.{◌≡◌, ◌||◌, not, IsTrue, IsOk, IfOk, OnOk, OnErr, vec_capacity};
ghost use Rattle.cache_types.specs.Legal.{IsLegal};
ghost use Rattle.cache_types.specs.Entries.{newest_first, is_end, is_not_yet};
ghost use Rattle.cache_types.specs.Step.{IsCaller, MayCall, reply_after, stepped, history_after, is_full, WouldAppend};
ghost use Rattle.cache_log.specs.Kept.{IsKept};
ghost use Rattle.cache_core.specs.Knows.{Knows};
ghost use Rattle.cache_core.specs.Waits.{Awaits};

use crate::awaiting::tell_all;
use crate::ending::tell_end;
use crate::parts::Parts;
use crate::replies::reply_by;
use crate::waits::Waits;
use cache_log::{append, entry_with, is_end, is_full, is_not_yet, make_room};
use cache_types::{CacheCall, Copied, Entry, Reply, StepFault, Stepped};

/// The End of a live guest: its room was kept, so it takes no memory and has no refusal.
fn end(
    entries: &mut Vec<Entry>,
    live: &mut usize,
    parts: &mut Parts,
    guest: u64,
    reading: u64,
) -> Stepped
    requires kept { IsKept entries.old.items live.old (vec_capacity entries.old) }
    requires knows { Knows parts.old (newest_first entries.old.items) }
    requires may { IsCaller (newest_first entries.old.items) guest CacheCall.End }
    ensures told { result ≡ stepped entries.old.items guest reading CacheCall.End }
    ensures appended { entries.new.items ≡ history_after entries.old.items guest reading CacheCall.End }
    ensures kept { IsKept entries.new.items live.new (vec_capacity entries.new) }
    ensures knows { Knows parts.new (newest_first entries.new.items) }
{
    let entry = entry_with(
        entries.as_slice(),
        guest,
        reading,
        CacheCall::End,
        Reply::Done,
    );
    let number = entry.number;
    tell_end(parts, entry.guest);
    append(entries, live, entry);
    Stepped {
        number,
        reply: Reply::Done,
    }
}

/// Makes one step over the entries and the parts.
pub fn step_over(
    entries: &mut Vec<Entry>,
    live: &mut usize,
    parts: &mut Parts,
    waits: &mut Waits,
    most: u64,
    guest: u64,
    reading: u64,
    call: &CacheCall,
) -> Result<Stepped, StepFault>
    requires kept { IsKept entries.old.items live.old (vec_capacity entries.old) }
    requires knows { Knows parts.old (newest_first entries.old.items) }
    requires awaits { Awaits waits.old (newest_first entries.old.items) }
    requires may { MayCall entries.old.items guest call.now }
    ensures told { IfOk result (λ told. told ≡ stepped entries.old.items guest reading call.now) }
    ensures appended { OnOk result (entries.new.items ≡ history_after entries.old.items guest reading call.now) }
    ensures unchanged { OnErr result (entries.new.items ≡ entries.old.items) }
    ensures room { IfOk result (λ told. IsTrue (is_not_yet told.reply || not (is_full (newest_first entries.old.items) most call.now))) }
    ensures full { result ≡ Err StepFault.Full → IsTrue (is_full (newest_first entries.old.items) most call.now) }
    ensures full_of_entry { result ≡ Err StepFault.Full → WouldAppend entries.old.items guest reading call.now }
    ensures end { IsTrue (is_end call.now) → IsOk result }
    ensures kept { IsKept entries.new.items live.new (vec_capacity entries.new) }
    ensures knows { Knows parts.new (newest_first entries.new.items) }
    ensures awaits { Awaits waits.new (newest_first entries.new.items) }
{
    if is_end(call) {
        return Ok(end(entries, live, parts, guest, reading));
    }
    let alloc = *entries.allocator();
    let reply = reply_by(
        alloc,
        parts,
        waits,
        entries.as_slice(),
        guest,
        reading,
        call,
    )?;
    if is_not_yet(&reply) {
        return Ok(Stepped {
            number: 0,
            reply: Reply::NotYet,
        });
    }
    if is_full(entries.as_slice(), *live, most, call) {
        return Err(StepFault::Full);
    }
    let told = reply.copy(alloc)?;
    let call = call.copy(alloc)?;
    make_room(entries, *live, &call)?;
    let entry = entry_with(entries.as_slice(), guest, reading, call, reply);
    tell_all(parts, waits, alloc, entries.as_slice(), &entry)?;
    let number = entry.number;
    append(entries, live, entry);
    Ok(Stepped {
        number,
        reply: told,
    })
}
