//! Copies of the parts of bodies.
ghost use Rattle.std.specs.Prelude.{◌≡◌, Some, IfOk, OnOk};
ghost use Rattle.edge_abi.specs.Tables.{held};
ghost use Rattle.edge_http_calls.specs.Bodies.{parts_in};

use cache_types::Copied;
use edge_body::{Body, Part};
use edge_http_calls::{BodyState, HttpTables};
use std::alloc::{AllocError, Global};

/// A copy of the parts of a body.
fn copied(alloc: Global, body: &mut Body) -> Result<Body, AllocError>
    ensures copy { IfOk result (λ copy. copy ≡ body.old) }
    ensures kept { OnOk result (body.new ≡ body.old) }
{
    let mut copy = Body::new(alloc);
    let mut kept = Body::new(alloc);
    while let Some(part) = body.pop_front() {
        copy.push_back(copied_part(alloc, &part)?)?;
        kept.push_back(part)?;
    }
    *body = kept;
    Ok(copy)
}

fn copied_part(alloc: Global, part: &Part) -> Result<Part, AllocError>
    ensures { IfOk result (λ copy. copy ≡ part.now) }
{
    match part {
        Part::Own(bytes) => Ok(Part::Own(bytes.copy(alloc)?)),
        Part::Rest { hit, place, length } => Ok(Part::Rest {
            hit: *hit,
            place: *place,
            length: *length,
        }),
    }
}

fn state_parts(alloc: Global, state: &mut BodyState) -> Result<Body, AllocError>
    ensures copy { IfOk result (λ copy. copy ≡ parts_in (Some state.old)) }
    ensures kept { OnOk result (state.new ≡ state.old) }
{
    match state {
        BodyState::Held(body) => copied(alloc, body),
        _ => Ok(Body::new(alloc)),
    }
}

/// A copy of the parts of the body that a number names.
#[tactic(auto, using(crate::proofs::Same::value_same))]
pub fn parts_of(alloc: Global, tables: &mut HttpTables, h: u32) -> Result<Body, AllocError>
    ensures copy { IfOk result (λ copy. copy ≡ parts_in (held tables.old.bodies h)) }
    ensures kept { OnOk result (tables.new ≡ tables.old) }
{
    match tables.bodies.get_mut(h) {
        Some(state) => state_parts(alloc, state),
        None => Ok(Body::new(alloc)),
    }
}
