//! Expressions (section 5.4.6): instructions up to the end that closes no block.

ghost use Rattle.std.specs.Prelude.{◌≡◌, IfOk, OnOk};
ghost use Rattle.wasm_types.specs.Nested.{role_of};
ghost use Rattle.wasm_code.specs.Reading.{Gives};
ghost use Rattle.wasm_code.specs.Instructions.{may_else, refusal, opens_after, is_last, instr_at, expression_at};

use crate::fault::{ReadKind, Stop};
use crate::instructions::read_instr;
use crate::opcodes::opcode_fault;
use crate::scope::{Scope, fault_at, short_of};
use std::alloc::{AllocError, Global};
use std::collections::VecDeque;
use wasm_types::Instr;
use wasm_types::limits::MOST_NESTED;

// The blocks that are open, the innermost first: whether an else may part it.
type Opens = VecDeque<bool>;

fn may_else(opens: &Opens) -> bool
    ensures { result ≡ may_else opens.now.items }
{
    match opens.front() {
        None => false,
        Some(may) => *may,
    }
}

// Why an opcode may not stand inside these blocks.
fn refusal(opens: &Opens, code: u8) -> Option<ReadKind>
    ensures { result ≡ refusal opens.now.items code }
{
    if code == 0x05 {
        if may_else(opens) {
            return None;
        }
        return Some(ReadKind::BadForm);
    }
    if 0x02 <= code && code <= 0x04 {
        if opens.len() < MOST_NESTED {
            return None;
        }
        return Some(ReadKind::NestedTooDeep);
    }
    None
}

// Opens, parts or closes a block, and says whether the expression ends here.
fn follow(opens: &mut Opens, instr: &Instr) -> Result<bool, AllocError>
    ensures ended { IfOk result (λ ended. ended ≡ is_last (role_of instr.now) opens.old.items) }
    ensures after { OnOk result (opens.new.items ≡ opens_after (role_of instr.now) opens.old.items) }
{
    match instr {
        Instr::Block(_) | Instr::Loop(_) => {
            opens.push_front(false)?;
            Ok(false)
        }
        Instr::If(_) => {
            opens.push_front(true)?;
            Ok(false)
        }
        Instr::Else => {
            if opens.pop_front().is_some() {
                opens.push_front(false)?;
            }
            Ok(false)
        }
        Instr::End => Ok(opens.pop_front().is_none()),
        _ => Ok(false),
    }
}

#[tactic(auto, unfolding(crate::specs::Instructions::instr_at))]
fn read_next<'a>(
    alloc: Global,
    opens: &Opens,
    scope: Scope,
    bytes: &'a [u8],
) -> Result<(Instr, &'a [u8]), Stop>
    ensures { Gives (λ x. (x.0, x.1.now)) result (instr_at opens.now.items scope bytes.now) }
{
    match bytes {
        [] => Err(Stop::Fault(short_of(scope))),
        [code, rest @ ..] => match refusal(opens, *code) {
            Some(kind) => Err(Stop::Fault(fault_at(kind, scope, bytes))),
            None => {
                let unknown = fault_at(opcode_fault(*code), scope, bytes);
                read_instr(alloc, unknown, scope, *code, rest)
            }
        },
    }
}

/// An expression with its `End`, and the bytes after it.
pub fn read_expression(
    alloc: Global,
    scope: Scope,
    bytes: &[u8],
) -> Result<(Vec<Instr>, &[u8]), Stop>
    ensures { Gives (λ x. (x.0.items, x.1.now)) result (expression_at scope bytes.now) }
{
    let mut opens = VecDeque::new(alloc);
    let mut code = Vec::new(alloc);
    let mut rest = bytes;
    for _ in 0..bytes.len() {
        let (instr, after) = read_next(alloc, &opens, scope, rest)?;
        let ended = follow(&mut opens, &instr)?;
        code.push(instr)?;
        rest = after;
        if ended {
            return Ok((code, rest));
        }
    }
    Err(Stop::Fault(short_of(scope)))
}
