//! The rows of `fastly_http_body` that read and write held bodies.
ghost use Rattle.std.specs.Prelude.{◌≡◌, ◌∷◌, List, IsTrue, Ok, Err, None, Some, is_some, take, drop, min, length, IfOk, IfErr, OnOk};
ghost use Rattle.edge_abi.specs.declared.status.Status.TheVariants.{Badf};
ghost use Rattle.edge_abi.specs.Goes.{Ends};
ghost use Rattle.edge_abi.specs.Memory.{has_range, octets_at, put, number_put};
ghost use Rattle.edge_abi.specs.Tables.{held};
ghost use Rattle.edge_http_calls.specs.declared.tables.BodyState.TheVariants.{Held};
ghost use Rattle.edge_http_calls.specs.Bodies as spec;
ghost use Rattle.edge_http_calls.specs.Tables.{with_changed, is_kept, begins_own, reads_own};

use crate::asked::handled;
use crate::tables::{BodyState, HttpTables};
use cache_types::Octets;
use edge_abi::{Refusal, Status, placed, put, put_number, ranged, unless};
use edge_body::{Body, Part};
use std::alloc::{AllocError, Global};
use wasm_memory::Memory;

/// The most bytes of one read, and of one piece.
const MOST_PIECE: u32 = 65_536;

/// The most bytes of two bodies' parts that are joined.
const MOST_PARTS: usize = 1 << 62;

fn is_held(state: &BodyState) -> bool
    ensures { result ≡ is_some (spec.parts_of state.now) }
{
    match state {
        BodyState::Held(_) => true,
        _ => false,
    }
}

/// The bytes of a range.
fn octets(alloc: Global, memory: &Memory, p: u32, n: u32) -> Result<Octets, AllocError>
    requires { IsTrue (has_range memory.now p n) }
    ensures { IfOk result (λ octets. octets ≡ octets_at memory.now p n) }
{
    match memory.part(p, n) {
        Some(bytes) => Octets::of(alloc, bytes),
        None => unreachable!(),
    }
}

/// What a body is that may be written to: only a held one has a front.
pub fn writable<'a>(
    tables: &'a HttpTables,
    memory: &Memory,
    h: u32,
    p: u32,
    n: u32,
    end: u32,
    o: u32,
) -> Result<&'a BodyState, Refusal>
    ensures ok { IfOk result (λ state. spec.writable tables.now memory.now h p n end o ≡ Ok state.now) }
    ensures named { IfOk result (λ state. held tables.now.bodies h ≡ Some state.now) }
    ensures range { OnOk result (IsTrue (has_range memory.now p n)) }
    ensures err { IfErr result (λ refusal. spec.writable tables.now memory.now h p n end o ≡ Err refusal) }
{
    let state = handled(&tables.bodies, h)?;
    ranged(memory, p, n)?;
    placed(memory, o, 4)?;
    unless(end == 0 || end == 1, Status::Inval)?;
    unless(end == 0 || is_held(state), Status::Unsupported)?;
    Ok(state)
}

/// A held body has this part at its back or front.
fn grow(state: &mut BodyState, end: u32, part: Part) -> Result<(), AllocError>
    ensures { OnOk result (state.new ≡ spec.grown end part state.old) }
{
    match state {
        BodyState::Held(body) => {
            if end == 0 {
                body.push_back(part)
            } else {
                body.push_front(part)
            }
        }
        _ => Ok(()),
    }
}

fn grow_body(tables: &mut HttpTables, h: u32, end: u32, part: Part) -> Result<(), AllocError>
    ensures { OnOk result (tables.new ≡ with_changed tables.old h (spec.grown end part)) }
{
    match tables.bodies.get_mut(h) {
        Some(state) => grow(state, end, part),
        None => Ok(()),
    }
}

/// Writes bytes to the back (0) or the front (1) of a held body, as a part of its own.
pub fn http_body_write(
    alloc: Global,
    tables: &mut HttpTables,
    memory: &mut Memory,
    h: u32,
    p: u32,
    n: u32,
    end: u32,
    o: u32,
) -> Result<Status, AllocError>
    requires { IsTrue (is_kept (held tables.old.bodies h)) }
    ensures row { IfOk result (λ status. Ends (spec.http_body_write tables.old memory.old h p n end o) status tables.new memory.new) }
    ensures badf { held tables.old.bodies h ≡ None → result ≡ Ok Badf }
{
    match writable(tables, memory, h, p, n, end, o) {
        Ok(BodyState::Held(_)) => {
            let part = Part::Own(octets(alloc, memory, p, n)?);
            grow_body(tables, h, end, part)?;
            put_number(memory, o, 4, u64::from(n));
            Ok(Status::Ok)
        }
        Ok(_) => unreachable!(),
        Err(Refusal::Told(status)) => Ok(status),
        Err(Refusal::OutOfMemory) => Err(AllocError),
    }
}

/// What a body is that another one's parts may be put behind.
pub fn appendable(tables: &HttpTables, h: u32, second: u32) -> Result<&BodyState, Refusal>
    ensures ok { IfOk result (λ state. spec.appendable tables.now h second ≡ Ok state.now) }
    ensures named { IfOk result (λ state. held tables.now.bodies h ≡ Some state.now) }
    ensures err { IfErr result (λ refusal. spec.appendable tables.now h second ≡ Err refusal) }
{
    let first = handled(&tables.bodies, h)?;
    let other = handled(&tables.bodies, second)?;
    unless(is_held(other), Status::Inval)?;
    unless(h != second, Status::Inval)?;
    Ok(first)
}

/// A held body has these parts behind its own.
fn join(state: &mut BodyState, parts: Body) -> Result<(), AllocError>
    ensures { OnOk result (state.new ≡ spec.joined parts state.old) }
{
    match state {
        BodyState::Held(body) => {
            if MOST_PARTS <= body.len() || MOST_PARTS <= parts.len() {
                return Err(AllocError);
            }
            body.join(parts);
            Ok(())
        }
        _ => Ok(()),
    }
}

fn join_body(tables: &mut HttpTables, h: u32, parts: Body) -> Result<(), AllocError>
    ensures { OnOk result (tables.new ≡ with_changed tables.old h (spec.joined parts)) }
{
    match tables.bodies.get_mut(h) {
        Some(state) => join(state, parts),
        None => Ok(()),
    }
}

/// Puts the parts of the second body behind those of the first, which is held.
pub fn http_body_append(
    _alloc: Global,
    tables: &mut HttpTables,
    memory: &mut Memory,
    h: u32,
    second: u32,
) -> Result<Status, AllocError>
    requires { IsTrue (is_kept (held tables.old.bodies h)) }
    ensures row { IfOk result (λ status. Ends (spec.http_body_append tables.old memory.old h second) status tables.new memory.new) }
    ensures badf { held tables.old.bodies h ≡ None → result ≡ Ok Badf }
{
    match appendable(tables, h, second) {
        Ok(BodyState::Held(_)) => match tables.bodies.take(second) {
            Some(BodyState::Held(parts)) => {
                join_body(tables, h, parts)?;
                Ok(Status::Ok)
            }
            _ => Err(AllocError),
        },
        Ok(_) => unreachable!(),
        Err(Refusal::Told(status)) => Ok(status),
        Err(Refusal::OutOfMemory) => Err(AllocError),
    }
}

/// The parts of a held body that may be read.
pub fn readable<'a>(
    tables: &'a HttpTables,
    memory: &Memory,
    h: u32,
    b: u32,
    n: u32,
    o: u32,
) -> Result<&'a Body, Refusal>
    ensures ok { IfOk result (λ body. spec.readable tables.now memory.now h b n o ≡ Ok body.now) }
    ensures named { IfOk result (λ body. held tables.now.bodies h ≡ Some (Held body.now)) }
    ensures err { IfErr result (λ refusal. spec.readable tables.now memory.now h b n o ≡ Err refusal) }
{
    let state = handled(&tables.bodies, h)?;
    ranged(memory, b, n)?;
    placed(memory, o, 4)?;
    match state {
        BodyState::Held(body) => Ok(body),
        _ => Err(Refusal::Told(Status::Inval)),
    }
}

/// Takes the first bytes of these, at most so many; the others are a part at the front.
fn cut(body: &mut Body, bytes: &Octets, most: usize) -> Result<Octets, AllocError>
    ensures bytes { IfOk result (λ first. first ≡ take most bytes.now) }
    ensures left { OnOk result (body.new ≡ Part.Own (drop most bytes.now) ∷ body.old) }
{
    let len = bytes.bytes().len();
    let until = most.min(len);
    body.push_front(Part::Own(bytes.piece(until, len)?))?;
    bytes.piece(0, until)
}

/// Takes the first bytes off a body, at most so many.
fn read_off(alloc: Global, body: &mut Body, most: usize) -> Result<Octets, AllocError>
    requires { IsTrue (begins_own body.old) }
    ensures bytes { IfOk result (λ bytes. bytes ≡ spec.own_bytes most body.old) }
    ensures left { OnOk result (body.new ≡ spec.own_left most body.old) }
{
    while let Some(part) = body.pop_front() {
        match part {
            Part::Own(bytes) => {
                if !bytes.bytes().is_empty() {
                    return cut(body, &bytes, most);
                }
            }
            Part::Rest { .. } => unreachable!(),
        }
    }
    Octets::of(alloc, &[])
}

fn read_state(alloc: Global, state: &mut BodyState, most: usize) -> Result<Octets, AllocError>
    requires { IsTrue (reads_own (Some state.old)) }
    ensures bytes { IfOk result (λ bytes. bytes ≡ spec.bytes_in most state.old) }
    ensures left { OnOk result (state.new ≡ spec.shortened most state.old) }
{
    match state {
        BodyState::Held(body) => read_off(alloc, body, most),
        _ => Octets::of(alloc, &[]),
    }
}

fn read_body(
    alloc: Global,
    tables: &mut HttpTables,
    h: u32,
    most: usize,
) -> Result<Octets, AllocError>
    requires { IsTrue (reads_own (held tables.old.bodies h)) }
    ensures bytes { IfOk result (λ bytes. (parts : List Part) → held tables.old.bodies h ≡ Some (Held parts) → bytes ≡ spec.own_bytes most parts) }
    ensures left { OnOk result (tables.new ≡ with_changed tables.old h (spec.shortened most)) }
{
    match tables.bodies.get_mut(h) {
        Some(state) => read_state(alloc, state, most),
        None => Octets::of(alloc, &[]),
    }
}

/// How many bytes a read takes at most.
fn most_of(n: u32) -> usize
    ensures { result ≡ min n 65536 }
{
    n.min(MOST_PIECE) as usize
}

/// Writes what was read, and how many bytes they are.
fn tell(memory: &mut Memory, b: u32, o: u32, bytes: &Octets)
    ensures { memory.new ≡ number_put (put memory.old b bytes.now) o 4 (length bytes.now) }
{
    let bytes = bytes.bytes();
    put(memory, b, bytes);
    put_number(memory, o, 4, bytes.len() as u64);
}

/// Reads bytes off the front of a held body, where its first part with any is an own one.
pub fn http_body_read(
    alloc: Global,
    tables: &mut HttpTables,
    memory: &mut Memory,
    h: u32,
    b: u32,
    n: u32,
    o: u32,
) -> Result<Status, AllocError>
    requires { IsTrue (reads_own (held tables.old.bodies h)) }
    ensures row { IfOk result (λ status. Ends (spec.http_body_read tables.old memory.old h b n o) status tables.new memory.new) }
    ensures badf { held tables.old.bodies h ≡ None → result ≡ Ok Badf }
{
    match readable(tables, memory, h, b, n, o) {
        Ok(_) if n == 0 => {
            put_number(memory, o, 4, 0);
            Ok(Status::Ok)
        }
        Ok(_) => {
            let bytes = read_body(alloc, tables, h, most_of(n))?;
            tell(memory, b, o, &bytes);
            Ok(Status::Ok)
        }
        Err(Refusal::Told(status)) => Ok(status),
        Err(Refusal::OutOfMemory) => Err(AllocError),
    }
}
