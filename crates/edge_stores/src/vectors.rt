//! Lines that are written to `stdout` and `stderr`.
ghost use Rattle.std.specs.Prelude.{◌≡◌, ◌+◌, ◌*◌, ◌≤◌, Ok, Err, IfOk, IfErr, MatchOption, None, Some, length};
ghost use Rattle.edge_abi.specs.Goes.{Goes};
ghost use Rattle.edge_abi.specs.Refusals.{Judges};
ghost use Rattle.edge_stores.specs.UnderWays.{resumed};
ghost use Rattle.edge_stores.specs.Vectors as spec;
ghost use Rattle.edge_stores.specs.Wasi as rows;

use crate::numbers::errno_of;
use crate::tables::StoreTables;
use crate::under_way::{StoreStep, UnderWay};
use cache_types::{Octets, OuterCall};
use edge_abi::{Refusal, Status, Step, placed, unless};
use fastly_toml::Settings;
use std::alloc::{AllocError, Global};
use wasm_memory::Memory;

/// The most bytes of a line.
const MOST_LINE: usize = 65_536;

/// The number in four bytes.
fn word_at(memory: &Memory, place: u64) -> u32
    requires { place + 4 ≤ length memory.now.bytes }
    ensures { result ≡ spec.word_at memory.now place }
{
    match memory.load(place, 4) {
        Ok(number) => number as u32,
        Err(_) => unreachable!(),
    }
}

/// One vector's bytes more.
fn with_vector(memory: &Memory, line: &mut Vec<u8>, place: u32, len: u32) -> Result<(), Refusal>
    ensures { spec.TellsMore memory.now line.old.items (record { place = place; length = len }) result line.new.items }
{
    match memory.part(place, len) {
        Some(bytes) => {
            unless(line.len() + bytes.len() <= MOST_LINE, Status::Inval)?;
            line.extend_from_slice(bytes)?;
            Ok(())
        }
        None => Err(Refusal::Told(Status::Inval)),
    }
}

/// What the vectors from a place on hold.
#[tactic(auto, using(crate::proofs::Lines::vectors_step))]
fn line_of(alloc: Global, memory: &Memory, p: u32, count: u32) -> Result<Octets, Refusal>
    requires { p + 8 * count ≤ length memory.now.bytes }
    ensures { Judges (spec.line_of memory.now (spec.vectors memory.now p count)) result }
{
    let mut line = Vec::new(alloc);
    let mut place = u64::from(p);
    let mut left = u64::from(count);
    'vectors: while 0 < left {
        with_vector(
            memory,
            &mut line,
            word_at(memory, place),
            word_at(memory, place + 4),
        )?;
        place += 8;
        left -= 1;
    }
    Ok(Octets::from_vec(line)?)
}

/// `stdout` is 1, and `stderr` 2.
fn endpoint_of(fd: u32) -> Option<&'static [u8]>
    ensures { MatchOption result (rows.endpoint_of fd ≡ None) (λ name. rows.endpoint_of fd ≡ Some name.now) }
{
    match fd {
        1 => Some(b"stdout"),
        2 => Some(b"stderr"),
        _ => None,
    }
}

/// A line that is to be logged.
#[derive(Drop)]
pub struct Line {
    pub endpoint: Octets,
    pub bytes: Octets,
}

fn write_asked(
    alloc: Global,
    memory: &Memory,
    fd: u32,
    p: u32,
    count: u32,
    o: u32,
) -> Result<Line, Refusal>
    ensures { Judges (rows.write_asked memory.now fd p count o) result }
{
    let Some(name) = endpoint_of(fd) else {
        return Err(Refusal::Told(Status::Badf));
    };
    unless(
        memory.is_inside(u64::from(p), 8 * u64::from(count)),
        Status::Inval,
    )?;
    placed(memory, o, 4)?;
    let bytes = line_of(alloc, memory, p, count)?;
    let endpoint = Octets::of(alloc, name)?;
    Ok(Line { endpoint, bytes })
}

/// Writes what some vectors hold as one line.
pub fn wasi_fd_write(
    alloc: Global,
    tables: &mut StoreTables,
    _settings: &Settings,
    memory: &mut Memory,
    fd: u32,
    p: u32,
    count: u32,
    o: u32,
) -> Result<StoreStep, AllocError>
    ensures { IfOk result (λ step. Goes resumed (rows.wasi_fd_write tables.old memory.old fd p count o) step tables.new memory.new) }
{
    match write_asked(alloc, memory, fd, p, count, o) {
        Ok(line) => {
            let Line { endpoint, bytes } = line;
            let under = UnderWay::Writing {
                taken: bytes.bytes().len() as u32,
                place: o,
            };
            Ok(Step::Outer(
                OuterCall::Log {
                    endpoint,
                    line: bytes,
                },
                under,
            ))
        }
        Err(Refusal::Told(status)) => Ok(Step::Done(errno_of(status))),
        Err(Refusal::OutOfMemory) => Err(AllocError),
    }
}
