//! The code of a module.

ghost use Rattle.std.specs.Prelude.{◌+◌, ◌≤◌, length};
ghost use Rattle.wasm_validate.specs.Steps.{Gives};
ghost use Rattle.wasm_validate.specs.Parts.{bodies_at, code_at, body_type};

use crate::bodies::check_body;
use crate::context::Context;
use crate::fault::{Halt, Part, Stop, ValidKind, halt_in};
use std::alloc::Global;
use wasm_types::{Code, FuncType};

fn body_type<'a>(context: &'a Context, own: &[u32], index: usize) -> Result<&'a FuncType, Stop>
    ensures { Gives (λ t. t.now) result (body_type context.now own.now index) }
{
    match own.get(index) {
        Some(found) => context.type_at(*found),
        None => Err(Stop::Fault(ValidKind::UnknownFunction)),
    }
}

// The body of the function at an index among those that the module defines, of which the first one has a number.
fn check_function(
    alloc: Global,
    context: &Context,
    first: usize,
    own: &[u32],
    index: usize,
    code: &Code,
) -> Result<(), Halt>
    requires { first + index ≤ usize.MAX }
    ensures { Gives (λ x. x) result (code_at context.now first own.now index code.now) }
{
    let kind = match body_type(context, own, index) {
        Ok(kind) => kind,
        Err(stop) => return Err(halt_in(Part::Code, first + index, stop, 0)),
    };
    let mut locals = kind.params.items().to_vec(alloc)?;
    code.locals.add_to(&mut locals)?;
    let inside = Context {
        types: context.types,
        functions: context.functions,
        globals: context.globals,
        tables: context.tables,
        memories: context.memories,
        locals: &locals,
        result: kind.result,
    };
    check_body(alloc, &inside, first + index, code.body.items())
}

/// The bodies of the functions that the module defines.
#[tactic(auto, unfolding(crate::specs::Parts::bodies_at))]
pub fn check_code(
    alloc: Global,
    context: &Context,
    first: usize,
    own: &[u32],
    code: &[Code],
) -> Result<(), Halt>
    requires { first + length code.now ≤ usize.MAX }
    ensures { Gives (λ x. x) result (bodies_at context.now first own.now code.now) }
{
    for (i, item) in code.iter().enumerate() {
        check_function(alloc, context, first, own, i, item)?;
    }
    Ok(())
}
