//! The rows of `fastly_http_body`, with their outer calls, and what goes on with a row under way.
ghost use Rattle.std.specs.Prelude.{◌≡◌, ◌≤◌, IsTrue, Ok, None, IfOk, length, min};
ghost use Rattle.wasm_memory.specs.Linear.{Linear};
ghost use Rattle.edge_abi.specs.declared.asked.Step.TheVariants.{Done};
ghost use Rattle.edge_abi.specs.Goes.{Goes};
ghost use Rattle.edge_abi.specs.Memory.{has_range, octets_at};
ghost use Rattle.edge_abi.specs.Tables.{held};
ghost use Rattle.edge_http_calls.specs.Bodies as rows;
ghost use Rattle.body_calls.specs.declared.under_way.Then.TheVariants.{Append};
ghost use Rattle.body_calls.specs.Links.{IsUnlinked};
ghost use Rattle.body_calls.specs.UnderWays as spec;

use crate::moving::{moved, moved_on, read_on};
use crate::parts::parts_of;
use crate::pieces::piece_to;
use crate::reading::fetched;
use crate::replies::{status_of_abandon, status_of_finish, status_of_piece, status_of_sent};
use crate::sending::{failed, headed, sent};
use crate::under_way::{BodyStep, Then, UnderWay};
use cache_types::{CacheCall, Octets, OuterCall, OuterReply};
use edge_abi::{Refusal, Status, Step, put_number};
use edge_http_calls::{
    BodyState, HttpTables, To, appendable, http_body_abandon as abandon_held,
    http_body_append as append_held, http_body_close as close_held, http_body_write as write_held,
    writable,
};
use std::alloc::{AllocError, Global};
use wasm_memory::Memory;

/// The most bytes of a piece.
const MOST_PIECE: u32 = 65_536;

/// Ends a body: a held one is dropped, one that fills an object is finished, the streamed answer is closed whole.
pub fn http_body_close(
    alloc: Global,
    tables: &mut HttpTables,
    memory: &mut Memory,
    h: u32,
) -> Result<BodyStep, AllocError>
    ensures row { IfOk result (λ step. Goes spec.resumed (rows.http_body_close tables.old memory.old h) step tables.new memory.new) }
    ensures badf { held tables.old.bodies h ≡ None → result ≡ Ok (Done 3) }
    ensures unlinked { IfOk result IsUnlinked }
{
    match tables.bodies.get(h) {
        None => Ok(Step::Done(Status::Badf.number())),
        Some(BodyState::Held(_)) => {
            let status = close_held(alloc, tables, memory, h)?;
            Ok(Step::Done(status.number()))
        }
        Some(BodyState::Filling { object }) => Ok(Step::Outer(
            OuterCall::Cache(CacheCall::Finish { object: *object }),
            UnderWay::Finishing { body: h },
        )),
        Some(BodyState::Down) => Ok(Step::Outer(
            OuterCall::Close { whole: true },
            UnderWay::Closing { body: h },
        )),
    }
}

/// Ends a body that will never be whole: a held one is dropped, one that fills an object is abandoned, the streamed answer is
/// cut.
pub fn http_body_abandon(
    alloc: Global,
    tables: &mut HttpTables,
    memory: &mut Memory,
    h: u32,
) -> Result<BodyStep, AllocError>
    ensures row { IfOk result (λ step. Goes spec.resumed (rows.http_body_abandon tables.old memory.old h) step tables.new memory.new) }
    ensures badf { held tables.old.bodies h ≡ None → result ≡ Ok (Done 3) }
    ensures unlinked { IfOk result IsUnlinked }
{
    match tables.bodies.get(h) {
        None => Ok(Step::Done(Status::Badf.number())),
        Some(BodyState::Held(_)) => {
            let status = abandon_held(alloc, tables, memory, h)?;
            Ok(Step::Done(status.number()))
        }
        Some(BodyState::Filling { object }) => Ok(Step::Outer(
            OuterCall::Cache(CacheCall::Abandon { object: *object }),
            UnderWay::Abandoning { body: h },
        )),
        Some(BodyState::Down) => Ok(Step::Outer(
            OuterCall::Close { whole: false },
            UnderWay::Cutting { body: h },
        )),
    }
}

/// The first bytes of a range, as many as one piece takes.
#[tactic(auto, using(crate::proofs::Short::piece_short))]
fn piece_at(alloc: Global, memory: &Memory, p: u32, n: u32) -> Result<Octets, AllocError>
    requires { IsTrue (has_range memory.now p n) }
    ensures piece { IfOk result (λ piece. piece ≡ octets_at memory.now p (min n 65536)) }
    ensures short { IfOk result (λ piece. length piece ≤ 65536) }
{
    match memory.part(p, n.min(MOST_PIECE)) {
        Some(bytes) => Octets::of(alloc, bytes),
        None => unreachable!(),
    }
}

/// Writes the first bytes of a range as one piece.
fn piece_step(
    alloc: Global,
    memory: &Memory,
    to: To,
    p: u32,
    n: u32,
    o: u32,
) -> Result<BodyStep, AllocError>
    requires { IsTrue (has_range memory.now p n) }
    ensures row { IfOk result (λ step. (tables : HttpTables) → Goes spec.resumed (rows.writing tables memory.now p n o to) step tables memory.now) }
    ensures unlinked { IfOk result IsUnlinked }
{
    let piece = piece_at(alloc, memory, p, n)?;
    let under = UnderWay::Writing {
        to,
        taken: n.min(MOST_PIECE),
        count: o,
    };
    Ok(Step::Outer(piece_to(to, piece), under))
}

/// Writes bytes to a body: into a held one, or as one piece.
pub fn http_body_write(
    alloc: Global,
    tables: &mut HttpTables,
    memory: &mut Memory,
    h: u32,
    p: u32,
    n: u32,
    end: u32,
    o: u32,
) -> Result<BodyStep, AllocError>
    ensures row { IfOk result (λ step. Goes spec.resumed (rows.http_body_write tables.old memory.old h p n end o) step tables.new memory.new) }
    ensures badf { held tables.old.bodies h ≡ None → result ≡ Ok (Done 3) }
    ensures unlinked { IfOk result IsUnlinked }
{
    match writable(tables, memory, h, p, n, end, o) {
        Ok(BodyState::Held(_)) => {
            let status = write_held(alloc, tables, memory, h, p, n, end, o)?;
            Ok(Step::Done(status.number()))
        }
        Ok(BodyState::Filling { object }) => {
            let to = To::Filling { object: *object };
            piece_step(alloc, memory, to, p, n, o)
        }
        Ok(BodyState::Down) => piece_step(alloc, memory, To::Down, p, n, o),
        Err(Refusal::Told(status)) => Ok(Step::Done(status.number())),
        Err(Refusal::OutOfMemory) => Err(AllocError),
    }
}

/// Writes the parts of the second body on.
fn append_moved(
    alloc: Global,
    tables: &mut HttpTables,
    to: To,
    second: u32,
) -> Result<BodyStep, AllocError>
    ensures row { IfOk result (λ step. (memory : Linear)
        → Goes spec.resumed (spec.moves to (Append second) (rows.parts_in (held tables.old.bodies second)) tables.old memory) step tables.new memory) }
    ensures unlinked { IfOk result IsUnlinked }
{
    let left = parts_of(alloc, tables, second)?;
    moved(tables, to, Then::Append { second }, left)
}

/// Puts the parts of the second body behind those of the first, or writes them on in pieces.
pub fn http_body_append(
    alloc: Global,
    tables: &mut HttpTables,
    memory: &mut Memory,
    h: u32,
    second: u32,
) -> Result<BodyStep, AllocError>
    ensures row { IfOk result (λ step. Goes spec.resumed (rows.http_body_append tables.old memory.old h second) step tables.new memory.new) }
    ensures badf { held tables.old.bodies h ≡ None → result ≡ Ok (Done 3) }
    ensures unlinked { IfOk result IsUnlinked }
{
    match appendable(tables, h, second) {
        Ok(BodyState::Held(_)) => {
            let status = append_held(alloc, tables, memory, h, second)?;
            Ok(Step::Done(status.number()))
        }
        Ok(BodyState::Filling { object }) => {
            let to = To::Filling { object: *object };
            append_moved(alloc, tables, to, second)
        }
        Ok(BodyState::Down) => append_moved(alloc, tables, To::Down, second),
        Err(Refusal::Told(status)) => Ok(Step::Done(status.number())),
        Err(Refusal::OutOfMemory) => Err(AllocError),
    }
}

fn closed(tables: &mut HttpTables, h: u32, status: Status) -> BodyStep
    ensures row { (memory : Linear) → Goes spec.resumed (rows.closed tables.old memory h status) result tables.new memory }
    ensures unlinked { IsUnlinked result }
{
    tables.bodies.take(h);
    Step::Done(status.number())
}

fn abandoned(tables: &mut HttpTables, h: u32, status: Status) -> BodyStep
    ensures row { (memory : Linear) → Goes spec.resumed (rows.abandoned tables.old memory h status) result tables.new memory }
    ensures unlinked { IsUnlinked result }
{
    match status {
        Status::Ok => {
            tables.bodies.take(h);
            Step::Done(Status::Ok.number())
        }
        other => Step::Done(other.number()),
    }
}

fn wrote(memory: &mut Memory, taken: u32, count: u32, status: Status) -> BodyStep
    ensures row { (tables : HttpTables) → Goes spec.resumed (rows.wrote tables memory.old count taken status) result tables memory.new }
    ensures unlinked { IsUnlinked result }
{
    match status {
        Status::Ok => {
            put_number(memory, count, 4, u64::from(taken));
            Step::Done(Status::Ok.number())
        }
        other => Step::Done(other.number()),
    }
}

/// Goes on with a row that waited for this reply.
pub fn resumed(
    alloc: Global,
    tables: &mut HttpTables,
    memory: &mut Memory,
    under: UnderWay,
    reply: &OuterReply,
) -> Result<BodyStep, AllocError>
    ensures row { IfOk result (λ step. Goes spec.resumed (spec.resumed under tables.old memory.old reply.now) step tables.new memory.new) }
    ensures unlinked { IfOk result IsUnlinked }
{
    match under {
        UnderWay::Finishing { body } => Ok(closed(tables, body, status_of_finish(reply))),
        UnderWay::Closing { body } => Ok(closed(tables, body, status_of_sent(reply))),
        UnderWay::Abandoning { body } => Ok(abandoned(tables, body, status_of_abandon(reply))),
        UnderWay::Cutting { body } => Ok(abandoned(tables, body, status_of_sent(reply))),
        UnderWay::Writing { to, taken, count } => Ok(wrote(
            memory,
            taken,
            count,
            status_of_piece(to, reply),
        )),
        UnderWay::Fetching {
            body,
            place,
            most,
            count,
            hit,
            from,
            length,
            left,
        } => {
            fetched(
                alloc, tables, memory, body, place, most, count, hit, from, length, left, reply,
            )
        }
        UnderWay::Heading { then, left } => headed(tables, then, left, reply),
        UnderWay::Moving { to, then, left } => moved_on(tables, to, then, left, reply),
        UnderWay::Reading {
            to,
            then,
            hit,
            place,
            left,
        } => read_on(alloc, tables, to, then, hit, place, left, reply),
        UnderWay::Ending { response, body } => Ok(sent(tables, response, body, reply)),
        UnderWay::Failing => Ok(failed(tables, Status::Error)),
    }
}
