//! An expression by itself (section 5.4.6).

ghost use Rattle.std.specs.Prelude.{◌≡◌, ◌⊎◌, ◌+◌, ◌≤◌, List, ℕ, Ok, IfOk, IfErr, length, slice_range};
ghost use Rattle.wasm_types.specs.declared.instructions.Instr.{Instr};
ghost use Rattle.wasm_code.specs.Grammar.{IsExpression};
ghost use Rattle.wasm_code.specs.declared.fault.ReadKind.TheVariants as kinds;
ghost use Rattle.wasm_code.specs.Reading.{Answers, no_memory};
ghost use Rattle.wasm_code.specs.Instructions.{expression_at, code_at};
ghost use Rattle.wasm_code.specs.FirstFault.{IsFirst};

use crate::expressions::read_expression;
use crate::fault::{ReadFault, ReadKind, told_of};
use crate::scope::Scope;
use std::alloc::Global;
use wasm_types::Instr;

// The expression that begins at a place, and the place after it.
#[tactic(auto, unfolding(crate::specs::Instructions::code_at))]
fn code_from(
    alloc: Global,
    bytes: &[u8],
    place: usize,
    until: usize,
) -> Result<(Vec<Instr>, usize), ReadFault>
    requires in_order { place ≤ until }
    requires within { until ≤ length bytes.now }
    ensures { Answers (λ x. (x.0.items, x.1)) result (code_at place until bytes.now) }
{
    let scope = Scope {
        end: until,
        short: ReadKind::SectionSize,
    };
    match read_expression(alloc, scope, &bytes[place..until]) {
        Ok((code, rest)) => Ok((code, until.saturating_sub(rest.len()))),
        Err(stop) => Err(told_of(stop)),
    }
}

/// Reads the expression that begins at a place, with its `End`, and tells the place after it. What passes
/// `until` is a fault there.
pub fn read_code(
    alloc: Global,
    bytes: &[u8],
    place: usize,
    until: usize,
) -> Result<(Vec<Instr>, usize), ReadFault>
    requires in_order { place ≤ until }
    requires within { until ≤ length bytes.now }

    // What is read is an expression, and ends at the place that is told.
    ensures found { IfOk result (λ x. (rest : List ℕ) × IsExpression (slice_range bytes.now place until) x.0.items rest
        × (x.1 + length rest ≡ until)) }

    // What is an expression is read, unless memory runs out.
    ensures only { (code : List Instr) (rest : List ℕ) → IsExpression (slice_range bytes.now place until) code rest →
        Answers (λ x. x.0.items) result (Ok code) }

    // Which fault it is.
    ensures exact { Answers (λ x. (x.0.items, x.1)) result (code_at place until bytes.now) }

    // The fault is the first one: nothing is wrong before its place, and nothing that follows mends it.
    ensures first { IfErr result (λ fault. (fault ≡ no_memory) ⊎ IsFirst expression_at (record { end = until; short = kinds.SectionSize }) (slice_range bytes.now place until) fault) }
{
    code_from(alloc, bytes, place, until)
}
