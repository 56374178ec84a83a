//! Instructions (section 5.4): opcodes and their operands.

ghost use Rattle.std.specs.Prelude.{◌≡◌, ◌++◌, IfOk};
ghost use Rattle.wasm_writer.specs.Spelled.{operands_text, instr_text, code_text};

use crate::numbers::{write_i32, write_i64, write_number};
use crate::opcodes::opcode;
use crate::types::result_byte;
use crate::vectors::{Index, Spelling, write_all, write_vector};
use std::alloc::AllocError;
use wasm_types::{Instr, Value};

fn write_operands(out: &mut Vec<u8>, instr: &Instr) -> Result<(), AllocError>
    ensures { IfOk result (λ _. out.new.items ≡ out.old.items ++ operands_text instr.now) }
{
    match instr {
        Instr::Block(kind) | Instr::Loop(kind) | Instr::If(kind) => {
            out.push(result_byte(*kind))?;
            Ok(())
        }
        Instr::Br(index)
        | Instr::BrIf(index)
        | Instr::Call(index)
        | Instr::LocalGet(index)
        | Instr::LocalSet(index)
        | Instr::LocalTee(index)
        | Instr::GlobalGet(index)
        | Instr::GlobalSet(index) => write_number(out, u64::from(*index)),
        Instr::BrTable { labels, other } => {
            write_vector(out, &Index, labels.items())?;
            write_number(out, u64::from(*other))
        }
        Instr::CallIndirect(kind) => {
            write_number(out, u64::from(*kind))?;
            out.push(0x00)?;
            Ok(())
        }
        Instr::Load { align, offset, .. } | Instr::Store { align, offset, .. } => {
            write_number(out, u64::from(*align))?;
            write_number(out, u64::from(*offset))
        }
        Instr::MemorySize | Instr::MemoryGrow => {
            out.push(0x00)?;
            Ok(())
        }
        Instr::Const(Value::I32(number)) => write_i32(out, *number),
        Instr::Const(Value::I64(number)) => write_i64(out, *number),
        _ => Ok(()),
    }
}

#[tactic(auto, unfolding(crate::specs::Spelled::instr_text))]
fn write_instr(out: &mut Vec<u8>, instr: &Instr) -> Result<(), AllocError>
    ensures { IfOk result (λ _. out.new.items ≡ out.old.items ++ instr_text instr.now) }
{
    out.push(opcode(instr))?;
    write_operands(out, instr)
}

/// An instruction as an item.
#[derive(Drop)]
struct Instrs;

impl Spelling for Instrs {
    type Item = Instr;

    ghost text = { λ _. instr_text };

    fn write(&self, out: &mut Vec<u8>, item: &Instr) -> Result<(), AllocError> {
        write_instr(out, item)
    }
}

/// Instructions one after another, as an expression or a body.
#[tactic(auto, unfolding(crate::specs::Spelled::code_text))]
pub(crate) fn write_code(out: &mut Vec<u8>, code: &[Instr]) -> Result<(), AllocError>
    ensures { IfOk result (λ _. out.new.items ≡ out.old.items ++ code_text code.now) }
{
    write_all(out, &Instrs, code)
}
