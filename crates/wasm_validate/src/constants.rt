//! Constant expressions (section 3.3.7).

ghost use Rattle.std.specs.Prelude.{◌≡◌, [], Option};
ghost use Rattle.wasm_validate.specs.Steps.{Gives};
ghost use Rattle.wasm_validate.specs.Parts.{one_constant, is_end, constants, is_one, constant};

use crate::fault::{Stop, ValidKind};
use crate::instructions::type_of;
use crate::stack::Stack;
use std::alloc::Global;
use wasm_types::limits::MOST_OPERANDS;
use wasm_types::{GlobalType, Instr, ValueType, same_result};

fn one_constant(globals: &[GlobalType], instr: &Instr) -> Result<ValueType, Stop>
    ensures { Gives (λ t. t) result (one_constant globals.now instr.now) }
{
    match instr {
        Instr::Const(value) => Ok(type_of(value)),
        Instr::GlobalGet(index) => match globals.get(*index as usize) {
            None => Err(Stop::Fault(ValidKind::UnknownGlobal)),
            Some(found) => {
                if found.mutable {
                    Err(Stop::Fault(ValidKind::BadConst))
                } else {
                    Ok(found.kind)
                }
            }
        },
        _ => Err(Stop::Fault(ValidKind::BadConst)),
    }
}

fn is_end(instr: &Instr) -> bool
    ensures { result ≡ is_end instr.now }
{
    match instr {
        Instr::End => true,
        _ => false,
    }
}

// The operands after an expression.
fn constants(
    alloc: Global,
    globals: &[GlobalType],
    code: &[Instr],
) -> Result<Stack<ValueType>, Stop>
    ensures { Gives (λ s. s) result (constants code.now globals.now []) }
{
    let mut seen = Stack::new(alloc);
    for instr in code {
        if is_end(instr) {
            return Ok(seen);
        }
        let kind = one_constant(globals, instr)?;
        if MOST_OPERANDS <= seen.len() {
            return Err(Stop::Fault(ValidKind::TooHigh));
        }
        seen.push(kind)?;
    }
    Ok(seen)
}

fn is_one(kind: ValueType, mut seen: Stack<ValueType>) -> bool
    ensures { result ≡ is_one kind seen }
{
    same_result(Some(kind), seen.pop()) && seen.is_empty()
}

/// Whether an expression is constant and has this type.
pub fn constant(
    alloc: Global,
    globals: &[GlobalType],
    kind: ValueType,
    code: &[Instr],
) -> Result<(), Stop>
    ensures { Gives (λ x. x) result (constant globals.now kind code.now) }
{
    let seen = constants(alloc, globals, code)?;
    if is_one(kind, seen) {
        Ok(())
    } else {
        Err(Stop::Fault(ValidKind::TypeMismatch))
    }
}
