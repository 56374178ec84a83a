//! Rows that write parts on, piece by piece.
ghost use Rattle.std.specs.Prelude.{◌≡◌, ◌∷◌, IfOk};
ghost use Rattle.wasm_memory.specs.Linear.{Linear};
ghost use Rattle.edge_abi.specs.Goes.{Goes};
ghost use Rattle.edge_http_calls.specs.Tables.{with_changed};
ghost use Rattle.body_calls.specs.Fronts.{IsShort, going};
ghost use Rattle.body_calls.specs.Heards.{IsWithin, written_on};
ghost use Rattle.body_calls.specs.Links.{IsUnlinked};
ghost use Rattle.body_calls.specs.UnderWays as spec;

use crate::fronts::{Front, front_of};
use crate::pieces::{piece_to, read_at};
use crate::replies::{Heard, heard_in, status_of_piece};
use crate::under_way::{BodyStep, Then, UnderWay};
use cache_types::{Octets, OuterCall, OuterReply};
use edge_abi::{Status, Step};
use edge_body::{Body, Part};
use edge_http_calls::{BodyState, HttpTables, To};
use std::alloc::{AllocError, Global};

/// The most bytes of one Read, and of one piece.
const MOST_PIECE: u32 = 65_536;

/// How a row goes on behind a part that failed.
fn fail(then: Then, status: Status) -> BodyStep
    ensures row { (tables : HttpTables) (memory : Linear) → Goes spec.resumed (spec.fails_of then tables memory status) result tables memory }
    ensures unlinked { IsUnlinked result }
{
    match then {
        Then::Append { .. } => Step::Done(status.number()),
        Then::Send { .. } => Step::Outer(OuterCall::Close { whole: false }, UnderWay::Failing),
    }
}

fn set_down(tables: &mut HttpTables, h: u32)
    ensures { tables.new ≡ with_changed tables.old h spec.down }
{
    if let Some(state) = tables.bodies.get_mut(h) {
        *state = BodyState::Down;
    }
}

/// How a row goes on behind its last part.
fn end(tables: &mut HttpTables, then: Then) -> BodyStep
    ensures row { (memory : Linear) → Goes spec.resumed (spec.ends_of then tables.old memory) result tables.new memory }
    ensures unlinked { IsUnlinked result }
{
    match then {
        Then::Append { second } => {
            tables.bodies.take(second);
            Step::Done(Status::Ok.number())
        }
        Then::Send {
            response,
            body,
            streamed: false,
        } => Step::Outer(
            OuterCall::Close { whole: true },
            UnderWay::Ending { response, body },
        ),
        Then::Send {
            body,
            streamed: true,
            ..
        } => {
            tables.answered = true;
            set_down(tables, body);
            Step::Done(Status::Ok.number())
        }
    }
}

/// Writes on what these parts begin with.
fn front_moved(tables: &mut HttpTables, to: To, then: Then, front: Front) -> BodyStep
    requires { IsShort 65536 front }
    ensures row { (memory : Linear) → Goes spec.resumed (going to then front tables.old memory) result tables.new memory }
    ensures unlinked { IsUnlinked result }
{
    match front {
        Front::Bytes(bytes, left) => {
            Step::Outer(piece_to(to, bytes), UnderWay::Moving { to, then, left })
        }
        Front::Hit {
            hit,
            from,
            left,
            ..
        } => Step::Outer(
            read_at(hit, from, MOST_PIECE),
            UnderWay::Reading {
                to,
                then,
                hit,
                place: from,
                left,
            },
        ),
        Front::Nothing => end(tables, then),
    }
}

/// Writes parts on.
pub fn moved(
    tables: &mut HttpTables,
    to: To,
    then: Then,
    left: Body,
) -> Result<BodyStep, AllocError>
    ensures row { IfOk result (λ step. (memory : Linear) → Goes spec.resumed (spec.moves to then left tables.old memory) step tables.new memory) }
    ensures unlinked { IfOk result IsUnlinked }
{
    let front = front_of(left, MOST_PIECE as usize)?;
    Ok(front_moved(tables, to, then, front))
}

/// Goes on with a row that wrote a piece.
pub fn moved_on(
    tables: &mut HttpTables,
    to: To,
    then: Then,
    left: Body,
    reply: &OuterReply,
) -> Result<BodyStep, AllocError>
    ensures row { IfOk result (λ step. (memory : Linear) → Goes spec.resumed (spec.pieced to then left tables.old memory reply.now) step tables.new memory) }
    ensures unlinked { IfOk result IsUnlinked }
{
    match status_of_piece(to, reply) {
        Status::Ok => moved(tables, to, then, left),
        status => Ok(fail(then, status)),
    }
}

/// The rest of a hit comes first, behind what was read of it.
fn rest_first(mut left: Body, hit: u64, place: u64, bytes: &Octets) -> Result<Body, AllocError>
    ensures { IfOk result (λ parts. parts ≡ spec.rest_of hit place bytes.now ∷ left) }
{
    let place = place.saturating_add(bytes.bytes().len() as u64);
    left.push_front(Part::Rest {
        hit,
        place,
        length: None,
    })?;
    Ok(left)
}

/// What was read of a hit is written on, as one piece.
fn heard_moved(
    tables: &mut HttpTables,
    to: To,
    then: Then,
    hit: u64,
    place: u64,
    left: Body,
    heard: Heard,
) -> Result<BodyStep, AllocError>
    requires { IsWithin 65536 heard }
    ensures row { IfOk result (λ step. (memory : Linear) → Goes spec.resumed (written_on to then hit place left tables.old memory heard) step tables.new memory) }
    ensures unlinked { IfOk result IsUnlinked }
{
    match heard {
        Heard::Bytes(bytes) => {
            let left = rest_first(left, hit, place, &bytes)?;
            Ok(Step::Outer(piece_to(to, bytes), UnderWay::Moving { to, then, left }))
        }
        Heard::Ended => moved(tables, to, then, left),
        Heard::Failed => Ok(fail(then, Status::Error)),
    }
}

/// Goes on with a row that read a hit to write it on.
pub fn read_on(
    alloc: Global,
    tables: &mut HttpTables,
    to: To,
    then: Then,
    hit: u64,
    place: u64,
    left: Body,
    reply: &OuterReply,
) -> Result<BodyStep, AllocError>
    ensures row { IfOk result (λ step. (memory : Linear) → Goes spec.resumed (spec.read_on to then hit place left tables.old memory reply.now) step tables.new memory) }
    ensures unlinked { IfOk result IsUnlinked }
{
    let heard = heard_in(alloc, reply, MOST_PIECE as usize)?;
    heard_moved(tables, to, then, hit, place, left, heard)
}
