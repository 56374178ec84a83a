//! Reads inside one piece of a body share its memory, whichever piece it is.

ghost use Rattle.std.specs.Prelude.{OnOk};
ghost use Rattle.core_tests.specs.Asked.{HasGuest};

use crate::asked::{ask, begin};
use crate::calls::{PIECE, Round, call_of, read, write};
use cache_core::CoreCache;
use cache_types::{OneCache, Reply, StepFault, Stepped};
use std::alloc::Global;
use std::fs;
use std::test::Fail;

/// How many reads of the two pieces are kept.
const READS: u64 = 10_000;

/// How many pages of 4,096 bytes they may take, with their entries. Copied they would take sixteen each, and as many in the
/// entries.
const PAGES: u64 = 16_384;

/// The pages of memory that the process has now.
fn pages(rt: &HostRuntime) -> Result<u64, Fail> {
    let told = fs::read(rt, "/proc/self/statm").map_err(|_| "no count of pages")?;
    let text = str::from_utf8(told.as_slice()).map_err(|_| "no text")?;
    let (_all, rest) = text.split_once(' ').ok_or("one number")?;
    let (resident, _others) = rest.split_once(' ').ok_or("two numbers")?;
    Ok(resident.parse::<u64>().map_err(|_| "no number")?)
}

fn is_done(told: &Result<Stepped, StepFault>) -> bool {
    matches!(
        told,
        Ok(Stepped {
            reply: Reply::Done,
            ..
        })
    )
}

/// What many reads told of the object's two pieces, in turns.
fn reads<S: OneCache>(
    alloc: Global,
    cache: &mut S,
    guest: u64,
    object: u64,
) -> Result<Vec<Stepped>, Fail>
    requires { HasGuest (S.history cache.old) guest }
    ensures { OnOk result (HasGuest (S.history cache.new) guest) }
{
    let mut told = Vec::new(alloc);
    for n in 0..READS {
        let place = if n % 2 == 0 { 0 } else { u64::from(PIECE) };
        told.push(ask(cache, guest, &read(object, place)).map_err(|_| "no answer")?)?;
    }
    Ok(told)
}

#[test]
fn reads_share_their_piece(rt: HostRuntime) -> Result<(), Fail> {
    let alloc = rt.alloc();
    let mut cache = CoreCache::new(alloc, 1_000_000);
    let guest = begin(&mut cache).map_err(|_| "no begin")?;
    let made = ask(&mut cache, guest, &call_of(alloc, Round::Insert, 1)?).map_err(
        |_| "no insertion",
    )?;
    let first = ask(&mut cache, guest, &write(alloc, made.number)?);
    let second = ask(&mut cache, guest, &write(alloc, made.number)?);
    assert!(rt; is_done(&first) && is_done(&second));
    let before = pages(&rt)?;
    let told = reads(alloc, &mut cache, guest, made.number)?;
    let after = pages(&rt)?;
    for one in told.as_slice() {
        assert!(rt;
            matches!(&one.reply, Reply::Bytes(part) if part.bytes().len() == PIECE as usize)
        );
    }
    let grown = after.saturating_sub(before);
    assert!(rt; grown < PAGES, "{grown} pages");
    Ok(())
}
