//! Code (section 5.5.13).

ghost use Rattle.std.specs.Prelude.{◌≡◌, []};
ghost use Rattle.wasm_code.specs.Reading.{Gives, Fails};
ghost use Rattle.wasm_reader.specs.Grammar.{params_of};
ghost use Rattle.wasm_reader.specs.Sections.{is_bad_leb, crowded_at, groups_at, locals_from, locals_at, body_at, bodies_at, code_section_at};

use crate::sections::read_sized;
use std::alloc::Global;
use wasm_code::{
    Field, ReadKind, Scope, Stop, fault_at, read_count, read_expression, read_u32, read_value_type,
    short_of,
};
use wasm_types::limits::{MOST_FUNCTIONS, MOST_LOCALS};
use wasm_types::{Code, FuncType, Items, Locals};

fn is_bad_leb(kind: ReadKind) -> bool
    ensures { result ≡ is_bad_leb kind }
{
    matches!(kind, ReadKind::BadLeb)
}

// What stops reading where there are more parameters than locals may be: the count of groups, if it is wrong itself.
#[tactic(auto, unfolding(crate::specs::Sections::crowded_at))]
fn crowded(scope: Scope, bytes: &[u8]) -> Stop
    ensures { Fails result (crowded_at scope bytes.now) }
{
    let cut = Scope {
        end: scope.end,
        short: ReadKind::TooLarge,
    };
    match read_u32(cut, bytes) {
        Ok(_) => Stop::Fault(fault_at(ReadKind::TooLarge, scope, bytes)),
        Err(Stop::Memory) => Stop::Memory,
        Err(Stop::Fault(fault)) => {
            if is_bad_leb(fault.kind) {
                return Stop::Fault(fault);
            }
            Stop::Fault(fault_at(ReadKind::TooLarge, scope, bytes))
        }
    }
}

// The count of groups of locals.
#[tactic(auto, unfolding(crate::specs::Sections::groups_at))]
fn read_groups(params: usize, scope: Scope, bytes: &[u8]) -> Result<(u32, &[u8]), Stop>
    ensures { Gives (λ x. (x.0, x.1.now)) result (groups_at params scope bytes.now) }
{
    match bytes {
        [] => Err(Stop::Fault(short_of(scope))),
        [_, ..] => {
            if MOST_LOCALS < params {
                return Err(crowded(scope, bytes));
            }
            read_u32(scope, bytes)
        }
    }
}

// So many groups of locals: each a count, for which there is room with the locals so far, and a type.
fn read_all_groups(
    alloc: Global,
    params: usize,
    count: u32,
    scope: Scope,
    bytes: &[u8],
) -> Result<(Locals, &[u8]), Stop>
    ensures { Gives (λ x. (x.0, x.1.now)) result (locals_from params [] count scope bytes.now) }
{
    let mut locals = Locals::new(alloc);
    let mut len = 0usize;
    let mut rest = bytes;
    for _ in 0..count {
        let room = MOST_LOCALS.saturating_sub(params.saturating_add(len));
        let (more, after) = read_count(room as u32, scope, rest)?;
        let (kind, after) = read_value_type(scope, after)?;
        locals = locals.with(more as usize, kind)?;
        len += more as usize;
        rest = after;
    }
    Ok((locals, rest))
}

#[tactic(auto, unfolding(crate::specs::Sections::locals_at))]
fn read_locals(
    alloc: Global,
    params: usize,
    scope: Scope,
    bytes: &[u8],
) -> Result<(Locals, &[u8]), Stop>
    ensures { Gives (λ x. (x.0, x.1.now)) result (locals_at params scope bytes.now) }
{
    let (count, rest) = read_groups(params, scope, bytes)?;
    read_all_groups(alloc, params, count, scope, rest)
}

#[tactic(auto, unfolding(crate::specs::Sections::body_at))]
fn read_body(
    alloc: Global,
    params: usize,
    scope: Scope,
    bytes: &[u8],
) -> Result<(Code, &[u8]), Stop>
    ensures { Gives (λ x. (x.0, x.1.now)) result (body_at params scope bytes.now) }
{
    let (locals, rest) = read_locals(alloc, params, scope, bytes)?;
    let (code, rest) = read_expression(alloc, scope, rest)?;
    Ok((
        Code {
            locals,
            body: Items::of(code),
        },
        rest,
    ))
}

// The code of a function with so many parameters.
#[derive(Clone, Copy)]
struct Body {
    params: usize,
}

impl Field for Body {
    type Item = Code;

    ghost reading = { λ b. body_at b.params };

    fn read<'a>(
        &self,
        alloc: Global,
        scope: Scope,
        bytes: &'a [u8],
    ) -> Result<(Code, &'a [u8]), Stop> {
        read_body(alloc, self.params, scope, bytes)
    }
}

// How many parameters the function at an index has.
fn params_of(types: &[FuncType], functions: &[u32], index: usize) -> usize
    ensures { result ≡ params_of types.now functions.now index }
{
    match functions.get(index) {
        None => 0,
        Some(kind) => match types.get(*kind as usize) {
            None => 0,
            Some(found) => found.params.items().len(),
        },
    }
}

// The code of so many functions.
fn read_bodies<'a>(
    alloc: Global,
    types: &[FuncType],
    functions: &[u32],
    count: u32,
    scope: Scope,
    bytes: &'a [u8],
) -> Result<(Items<Code>, &'a [u8]), Stop>
    ensures { Gives (λ x. (x.0, x.1.now)) result (bodies_at types.now functions.now 0 count scope bytes.now) }
{
    let mut bodies = Vec::new(alloc);
    let mut rest = bytes;
    for index in 0..count {
        let params = params_of(types, functions, index as usize);
        let (body, after) = read_sized(scope.short, &Body { params }, alloc, scope, rest)?;
        bodies.push(body)?;
        rest = after;
    }
    Ok((Items::of(bodies), rest))
}

/// The content of a code section, behind these types and functions.
#[derive(Clone, Copy)]
pub(crate) struct Bodies<'b> {
    pub types: &'b [FuncType],
    pub functions: &'b [u32],
}

#[tactic(auto, unfolding(crate::specs::Sections::code_section_at))]
fn read_code_section<'a>(
    alloc: Global,
    types: &[FuncType],
    functions: &[u32],
    scope: Scope,
    bytes: &'a [u8],
) -> Result<(Items<Code>, &'a [u8]), Stop>
    ensures { Gives (λ x. (x.0, x.1.now)) result (code_section_at types.now functions.now scope bytes.now) }
{
    let (count, rest) = read_count(MOST_FUNCTIONS, scope, bytes)?;
    read_bodies(alloc, types, functions, count, scope, rest)
}

impl<'b> Field for Bodies<'b> {
    type Item = Items<Code>;

    ghost reading = { λ b. code_section_at b.types.now b.functions.now };

    fn read<'a>(
        &self,
        alloc: Global,
        scope: Scope,
        bytes: &'a [u8],
    ) -> Result<(Items<Code>, &'a [u8]), Stop> {
        read_code_section(alloc, self.types, self.functions, scope, bytes)
    }
}
