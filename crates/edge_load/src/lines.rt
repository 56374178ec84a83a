//! The lines of one round.

ghost use Rattle.std.specs.Prelude.{◌≡◌, ◌<◌, ◌+◌, ◌^◌, ◌++◌, IfOk, OnOk};
ghost use Rattle.edge_load.specs.Load.{looks, inserts, writes, finishes, reads, round};

use cache_types::{CacheCall, Items, Octets, Rule, Terms, Writing};
use script_lines::{Line, Named};
use std::alloc::{AllocError, Global};

fn looks(alloc: Global, word: u32) -> Result<Line, AllocError>
    ensures { IfOk result (λ line. line ≡ looks word) }
{
    let key = Octets::of(alloc, &[(word % 64) as u8])?;
    let headers = Items::of(Vec::new(alloc));
    Ok(Line {
        call: CacheCall::TxLookup { key, headers },
        named: Named::Nothing,
    })
}

/// An insertion by the lookup of this line. Ages are in nanoseconds.
fn inserts(alloc: Global, at: u64, word: u32) -> Result<Line, AllocError>
    ensures { IfOk result (λ line. line ≡ inserts at word) }
{
    let terms = Terms {
        max_age: 1 + 1000 * (u64::from(word) / 64 % 4096),
        initial_age: 0,
        stale: 0,
        surrogates: Items::of(Vec::new(alloc)),
        metadata: Octets::of(alloc, &[])?,
    };
    let writing = Writing {
        terms,
        rule: Rule::empty(alloc),
        length: None,
    };
    Ok(Line {
        call: CacheCall::TxInsert { tx: 0, writing },
        named: Named::Line(at),
    })
}

fn writes(alloc: Global, at: u64, byte: u8) -> Result<Line, AllocError>
    ensures { IfOk result (λ line. line ≡ writes at byte) }
{
    let piece = Octets::of(alloc, &[byte; 64])?;
    Ok(Line {
        call: CacheCall::Write { object: 0, piece },
        named: Named::Line(at),
    })
}

fn finishes(at: u64) -> Line
    ensures { result ≡ finishes at }
{
    Line {
        call: CacheCall::Finish { object: 0 },
        named: Named::Line(at),
    }
}

fn reads(at: u64) -> Line
    ensures { result ≡ reads at }
{
    Line {
        call: CacheCall::Read {
            hit: 0,
            place: 0,
            most: 64,
        },
        named: Named::Line(at),
    }
}

/// Adds one round, whose first line is this one of the guest's.
pub fn push_round(
    alloc: Global,
    lines: &mut Vec<Line>,
    byte: u8,
    at: u64,
    word: u32,
) -> Result<(), AllocError>
    requires { at < 2 ^ 32 }
    ensures { OnOk result (lines.new.items ≡ lines.old.items ++ round byte at word) }
{
    lines.push(looks(alloc, word)?)?;
    lines.push(inserts(alloc, at, word)?)?;
    lines.push(writes(alloc, at + 1, byte)?)?;
    lines.push(finishes(at + 1))?;
    lines.push(reads(at))?;
    Ok(())
}
