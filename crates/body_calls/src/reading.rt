//! Reading a held body, whose parts may be what a lookup found.
ghost use Rattle.std.specs.Prelude.{◌≡◌, Ok, None, IfOk, IsTrue};
ghost use Rattle.edge_abi.specs.declared.asked.Step.TheVariants.{Done};
ghost use Rattle.edge_abi.specs.Goes.{Goes};
ghost use Rattle.edge_abi.specs.Tables.{held};
ghost use Rattle.edge_http_calls.specs.Bodies as rows;
ghost use Rattle.edge_http_calls.specs.Tables.{with_changed, begins_own};
ghost use Rattle.body_calls.specs.Fronts.{reading};
ghost use Rattle.body_calls.specs.Heards.{fetched_on};
ghost use Rattle.body_calls.specs.Links.{IsUnlinked};
ghost use Rattle.body_calls.specs.UnderWays as spec;

use crate::fronts::{Front, front_of};
use crate::parts::parts_of;
use crate::pieces::read_at;
use crate::replies::{Heard, heard_in};
use crate::under_way::{BodyStep, UnderWay};
use cache_types::OuterReply;
use edge_abi::{Refusal, Status, Step, put, put_number};
use edge_body::{Body, Part};
use edge_http_calls::{BodyState, HttpTables, http_body_read as read_held, readable};
use std::alloc::{AllocError, Global};
use wasm_memory::Memory;

/// The most bytes of one read.
const MOST_READ: u32 = 65_536;

fn set_left(state: &mut BodyState, left: Body)
    ensures { state.new ≡ rows.left_with left state.old }
{
    if let BodyState::Held(body) = state {
        *body = left;
    }
}

fn set_parts(tables: &mut HttpTables, h: u32, left: Body)
    ensures { tables.new ≡ with_changed tables.old h (rows.left_with left) }
{
    if let Some(state) = tables.bodies.get_mut(h) {
        set_left(state, left);
    }
}

/// These bytes were read, and these parts are left.
fn was_read(
    tables: &mut HttpTables,
    memory: &mut Memory,
    h: u32,
    b: u32,
    o: u32,
    bytes: &[u8],
    left: Body,
) -> BodyStep
    ensures row { Goes spec.resumed (rows.was_read tables.old memory.old h b o bytes.now left) result tables.new memory.new }
    ensures unlinked { IsUnlinked result }
{
    set_parts(tables, h, left);
    put(memory, b, bytes);
    put_number(memory, o, 4, bytes.len() as u64);
    Step::Done(Status::Ok.number())
}

/// Reads what some parts begin with.
fn read_front(
    alloc: Global,
    tables: &mut HttpTables,
    memory: &mut Memory,
    h: u32,
    b: u32,
    most: u32,
    o: u32,
    front: Front,
) -> BodyStep
    ensures row { Goes spec.resumed (reading tables.old memory.old h b most o front) result tables.new memory.new }
    ensures unlinked { IsUnlinked result }
{
    match front {
        Front::Bytes(bytes, left) => was_read(tables, memory, h, b, o, bytes.bytes(), left),
        Front::Hit {
            hit,
            from,
            length,
            left,
        } => Step::Outer(
            read_at(hit, from, most),
            UnderWay::Fetching {
                body: h,
                place: b,
                most,
                count: o,
                hit,
                from,
                length,
                left,
            },
        ),
        Front::Nothing => was_read(tables, memory, h, b, o, &[], Body::new(alloc)),
    }
}

/// Reads the first of these parts that has any bytes.
fn read_parts(
    alloc: Global,
    tables: &mut HttpTables,
    memory: &mut Memory,
    h: u32,
    b: u32,
    most: u32,
    o: u32,
    left: Body,
) -> Result<BodyStep, AllocError>
    ensures row { IfOk result (λ step. Goes spec.resumed (rows.read_parts tables.old memory.old h b most o left) step tables.new memory.new) }
    ensures unlinked { IfOk result IsUnlinked }
{
    let front = front_of(left, most as usize)?;
    Ok(read_front(alloc, tables, memory, h, b, most, o, front))
}

/// Reads the first part of a body that has any bytes.
fn parts_read(
    alloc: Global,
    tables: &mut HttpTables,
    memory: &mut Memory,
    h: u32,
    b: u32,
    most: u32,
    o: u32,
) -> Result<BodyStep, AllocError>
    ensures row { IfOk result (λ step. Goes spec.resumed (rows.read_parts tables.old memory.old h b most o (rows.parts_in (held tables.old.bodies h))) step tables.new memory.new) }
    ensures unlinked { IfOk result IsUnlinked }
{
    let left = parts_of(alloc, tables, h)?;
    read_parts(alloc, tables, memory, h, b, most, o, left)
}

/// The first part has bytes, and they are the guest's own.
#[tactic(auto, using(crate::proofs::OwnFirst::own_first))]
fn is_own_first(body: &Body) -> bool
    ensures { IsTrue result → IsTrue (begins_own body.now) }
{
    match body.first() {
        Some(Part::Own(bytes)) => !bytes.bytes().is_empty(),
        _ => false,
    }
}

/// Reads bytes off the front of a held body.
pub fn http_body_read(
    alloc: Global,
    tables: &mut HttpTables,
    memory: &mut Memory,
    h: u32,
    b: u32,
    n: u32,
    o: u32,
) -> Result<BodyStep, AllocError>
    ensures row { IfOk result (λ step. Goes spec.resumed (rows.http_body_read tables.old memory.old h b n o) step tables.new memory.new) }
    ensures badf { held tables.old.bodies h ≡ None → result ≡ Ok (Done 3) }
    ensures unlinked { IfOk result IsUnlinked }
{
    match readable(tables, memory, h, b, n, o) {
        Ok(_) if n == 0 => {
            put_number(memory, o, 4, 0);
            Ok(Step::Done(Status::Ok.number()))
        }
        Ok(body) if is_own_first(body) => {
            let status = read_held(alloc, tables, memory, h, b, n, o)?;
            Ok(Step::Done(status.number()))
        }
        Ok(_) => parts_read(alloc, tables, memory, h, b, n.min(MOST_READ), o),
        Err(Refusal::Told(status)) => Ok(Step::Done(status.number())),
        Err(Refusal::OutOfMemory) => Err(AllocError),
    }
}

/// What was read of a hit goes to the guest, and the rest of it comes first then.
fn fetched_bytes(
    tables: &mut HttpTables,
    memory: &mut Memory,
    h: u32,
    b: u32,
    o: u32,
    hit: u64,
    from: u64,
    length: Option<u64>,
    mut left: Body,
    bytes: &[u8],
) -> Result<BodyStep, AllocError>
    ensures row { IfOk result (λ step. Goes spec.resumed (spec.fetched_bytes tables.old memory.old h b o hit from length left bytes.now) step tables.new memory.new) }
    ensures unlinked { IfOk result IsUnlinked }
{
    let place = from.saturating_add(bytes.len() as u64);
    left.push_front(Part::Rest { hit, place, length })?;
    Ok(was_read(tables, memory, h, b, o, bytes, left))
}

/// The same of what a Read was answered; a hit that ended is passed over.
fn heard_fetched(
    alloc: Global,
    tables: &mut HttpTables,
    memory: &mut Memory,
    h: u32,
    b: u32,
    most: u32,
    o: u32,
    hit: u64,
    from: u64,
    length: Option<u64>,
    left: Body,
    heard: Heard,
) -> Result<BodyStep, AllocError>
    ensures row { IfOk result (λ step. Goes spec.resumed (fetched_on tables.old memory.old h b most o hit from length left heard) step tables.new memory.new) }
    ensures unlinked { IfOk result IsUnlinked }
{
    match heard {
        Heard::Bytes(bytes) => fetched_bytes(
            tables,
            memory,
            h,
            b,
            o,
            hit,
            from,
            length,
            left,
            bytes.bytes(),
        ),
        Heard::Ended => read_parts(alloc, tables, memory, h, b, most, o, left),
        Heard::Failed => Ok(Step::Done(Status::Error.number())),
    }
}

/// Goes on with a row that read a hit for the guest.
pub fn fetched(
    alloc: Global,
    tables: &mut HttpTables,
    memory: &mut Memory,
    h: u32,
    b: u32,
    most: u32,
    o: u32,
    hit: u64,
    from: u64,
    length: Option<u64>,
    left: Body,
    reply: &OuterReply,
) -> Result<BodyStep, AllocError>
    ensures row { IfOk result (λ step. Goes spec.resumed (spec.fetched tables.old memory.old h b most o hit from length left reply.now) step tables.new memory.new) }
    ensures unlinked { IfOk result IsUnlinked }
{
    let heard = heard_in(alloc, reply, most as usize)?;
    heard_fetched(
        alloc, tables, memory, h, b, most, o, hit, from, length, left, heard,
    )
}
