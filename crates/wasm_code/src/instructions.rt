//! Instructions (section 5.4), by ranges of their opcodes.

ghost use Rattle.std.specs.Prelude.{◌≡◌};
ghost use Rattle.wasm_code.specs.Reading.{Gives, fault_at};
ghost use Rattle.wasm_code.specs.Decoding.{opcode_fault};
ghost use Rattle.wasm_code.specs.Instructions.{type_fault, value_type_at, result_at, zero_at, two_at, control_at, branch_at, variable_at, memory_at, number_at, instr_of};

use crate::fault::{ReadFault, ReadKind, Stop};
use crate::numbers::{read_s32, read_s64, read_u32};
use crate::opcodes::{load, numeric, store};
use crate::scope::{Scope, fault_at, short_of};
use crate::vectors::{Index, read_vector};
use std::alloc::Global;
use wasm_types::limits::MOST_LABELS;
use wasm_types::{Instr, Value, ValueType};

// A type of floating point, or no value type.
fn type_fault(byte: u8) -> ReadKind
    ensures { result ≡ type_fault byte }
{
    if byte == 0x7D || byte == 0x7C {
        ReadKind::FloatUsed
    } else {
        ReadKind::BadForm
    }
}

/// A value type (section 5.3.1).
#[tactic(auto, unfolding(crate::specs::Instructions::value_type_at))]
pub fn read_value_type(scope: Scope, bytes: &[u8]) -> Result<(ValueType, &[u8]), Stop>
    ensures { Gives (λ x. (x.0, x.1.now)) result (value_type_at scope bytes.now) }
{
    match bytes {
        [] => Err(Stop::Fault(short_of(scope))),
        [0x7F, rest @ ..] => Ok((ValueType::I32, rest)),
        [0x7E, rest @ ..] => Ok((ValueType::I64, rest)),
        [byte, ..] => Err(Stop::Fault(fault_at(type_fault(*byte), scope, bytes))),
    }
}

// The result of a block (section 5.3.2).
#[tactic(auto, unfolding(crate::specs::Instructions::result_at))]
fn read_result(scope: Scope, bytes: &[u8]) -> Result<(Option<ValueType>, &[u8]), Stop>
    ensures { Gives (λ x. (x.0, x.1.now)) result (result_at scope bytes.now) }
{
    match bytes {
        [] => Err(Stop::Fault(short_of(scope))),
        [0x40, rest @ ..] => Ok((None, rest)),
        [0x7F, rest @ ..] => Ok((Some(ValueType::I32), rest)),
        [0x7E, rest @ ..] => Ok((Some(ValueType::I64), rest)),
        [byte, ..] => Err(Stop::Fault(fault_at(type_fault(*byte), scope, bytes))),
    }
}

// A byte that must be zero.
#[tactic(auto, unfolding(crate::specs::Instructions::zero_at))]
fn read_zero(scope: Scope, bytes: &[u8]) -> Result<(u8, &[u8]), Stop>
    ensures { Gives (λ x. (x.0, x.1.now)) result (zero_at scope bytes.now) }
{
    match bytes {
        [] => Err(Stop::Fault(short_of(scope))),
        [0x00, rest @ ..] => Ok((0, rest)),
        [_, ..] => Err(Stop::Fault(fault_at(ReadKind::BadForm, scope, bytes))),
    }
}

// The alignment and the offset of a memory instruction.
#[tactic(auto, unfolding(crate::specs::Instructions::two_at))]
fn read_two(scope: Scope, bytes: &[u8]) -> Result<((u32, u32), &[u8]), Stop>
    ensures { Gives (λ x. (x.0, x.1.now)) result (two_at scope bytes.now) }
{
    let (first, rest) = read_u32(scope, bytes)?;
    let (second, rest) = read_u32(scope, rest)?;
    Ok(((first, second), rest))
}

#[tactic(auto, unfolding(crate::specs::Instructions::control_at))]
fn control(unknown: ReadFault, scope: Scope, code: u8, rest: &[u8]) -> Result<(Instr, &[u8]), Stop>
    ensures { Gives (λ x. (x.0, x.1.now)) result (control_at unknown scope code rest.now) }
{
    match code {
        0x00 => Ok((Instr::Unreachable, rest)),
        0x01 => Ok((Instr::Nop, rest)),
        0x02 => {
            let (result, rest) = read_result(scope, rest)?;
            Ok((Instr::Block(result), rest))
        }
        0x03 => {
            let (result, rest) = read_result(scope, rest)?;
            Ok((Instr::Loop(result), rest))
        }
        0x04 => {
            let (result, rest) = read_result(scope, rest)?;
            Ok((Instr::If(result), rest))
        }
        0x05 => Ok((Instr::Else, rest)),
        0x0B => Ok((Instr::End, rest)),
        _ => Err(Stop::Fault(unknown)),
    }
}

#[tactic(auto, unfolding(crate::specs::Instructions::branch_at))]
fn branch(
    alloc: Global,
    unknown: ReadFault,
    scope: Scope,
    code: u8,
    rest: &[u8],
) -> Result<(Instr, &[u8]), Stop>
    ensures { Gives (λ x. (x.0, x.1.now)) result (branch_at unknown scope code rest.now) }
{
    match code {
        0x0C => {
            let (number, rest) = read_u32(scope, rest)?;
            Ok((Instr::Br(number), rest))
        }
        0x0D => {
            let (number, rest) = read_u32(scope, rest)?;
            Ok((Instr::BrIf(number), rest))
        }
        0x0E => {
            let (labels, rest) = read_vector(&Index, MOST_LABELS, alloc, scope, rest)?;
            let (other, rest) = read_u32(scope, rest)?;
            Ok((Instr::BrTable { labels, other }, rest))
        }
        0x0F => Ok((Instr::Return, rest)),
        0x10 => {
            let (number, rest) = read_u32(scope, rest)?;
            Ok((Instr::Call(number), rest))
        }
        0x11 => {
            let (kind, rest) = read_u32(scope, rest)?;
            let (_, rest) = read_zero(scope, rest)?;
            Ok((Instr::CallIndirect(kind), rest))
        }
        0x1A => Ok((Instr::Drop, rest)),
        0x1B => Ok((Instr::Select, rest)),
        _ => Err(Stop::Fault(unknown)),
    }
}

#[tactic(auto, unfolding(crate::specs::Instructions::variable_at))]
fn variable(unknown: ReadFault, scope: Scope, code: u8, rest: &[u8]) -> Result<(Instr, &[u8]), Stop>
    ensures { Gives (λ x. (x.0, x.1.now)) result (variable_at unknown scope code rest.now) }
{
    match code {
        0x20 => {
            let (number, rest) = read_u32(scope, rest)?;
            Ok((Instr::LocalGet(number), rest))
        }
        0x21 => {
            let (number, rest) = read_u32(scope, rest)?;
            Ok((Instr::LocalSet(number), rest))
        }
        0x22 => {
            let (number, rest) = read_u32(scope, rest)?;
            Ok((Instr::LocalTee(number), rest))
        }
        0x23 => {
            let (number, rest) = read_u32(scope, rest)?;
            Ok((Instr::GlobalGet(number), rest))
        }
        0x24 => {
            let (number, rest) = read_u32(scope, rest)?;
            Ok((Instr::GlobalSet(number), rest))
        }
        _ => Err(Stop::Fault(unknown)),
    }
}

#[tactic(auto, unfolding(crate::specs::Instructions::memory_at))]
fn memory(unknown: ReadFault, scope: Scope, code: u8, rest: &[u8]) -> Result<(Instr, &[u8]), Stop>
    ensures { Gives (λ x. (x.0, x.1.now)) result (memory_at unknown scope code rest.now) }
{
    if code == 0x3F {
        let (_, rest) = read_zero(scope, rest)?;
        return Ok((Instr::MemorySize, rest));
    }
    if code == 0x40 {
        let (_, rest) = read_zero(scope, rest)?;
        return Ok((Instr::MemoryGrow, rest));
    }
    if code < 0x36 {
        return match load(code) {
            Some(kind) => {
                let ((align, offset), rest) = read_two(scope, rest)?;
                Ok((
                    Instr::Load {
                        kind,
                        align,
                        offset,
                    },
                    rest,
                ))
            }
            None => Err(Stop::Fault(unknown)),
        };
    }
    match store(code) {
        Some(kind) => {
            let ((align, offset), rest) = read_two(scope, rest)?;
            Ok((
                Instr::Store {
                    kind,
                    align,
                    offset,
                },
                rest,
            ))
        }
        None => Err(Stop::Fault(unknown)),
    }
}

#[tactic(auto, unfolding(crate::specs::Instructions::number_at))]
fn number(unknown: ReadFault, scope: Scope, code: u8, rest: &[u8]) -> Result<(Instr, &[u8]), Stop>
    ensures { Gives (λ x. (x.0, x.1.now)) result (number_at unknown scope code rest.now) }
{
    if code == 0x41 {
        let (bits, rest) = read_s32(scope, rest)?;
        return Ok((Instr::Const(Value::I32(bits)), rest));
    }
    if code == 0x42 {
        let (bits, rest) = read_s64(scope, rest)?;
        return Ok((Instr::Const(Value::I64(bits)), rest));
    }
    match numeric(code) {
        Some(instr) => Ok((instr, rest)),
        None => Err(Stop::Fault(unknown)),
    }
}

/// The instruction with this opcode, and what is left behind its operands.
#[tactic(auto, unfolding(crate::specs::Instructions::instr_of))]
pub(crate) fn read_instr(
    alloc: Global,
    unknown: ReadFault,
    scope: Scope,
    code: u8,
    rest: &[u8],
) -> Result<(Instr, &[u8]), Stop>
    ensures { Gives (λ x. (x.0, x.1.now)) result (instr_of unknown scope code rest.now) }
{
    if code < 0x0C {
        return control(unknown, scope, code, rest);
    }
    if code < 0x20 {
        return branch(alloc, unknown, scope, code, rest);
    }
    if code < 0x28 {
        return variable(unknown, scope, code, rest);
    }
    if code < 0x41 {
        return memory(unknown, scope, code, rest);
    }
    number(unknown, scope, code, rest)
}
