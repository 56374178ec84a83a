//! The code of a function.

ghost use Rattle.std.specs.Prelude.{Some};
ghost use Rattle.wasm_validate.specs.declared.fault.Part.TheVariants.{Code};
ghost use Rattle.wasm_validate.specs.Faults.{in_part};
ghost use Rattle.basics.specs.Stops.{Gives};
ghost use Rattle.wasm_validate.specs.Scanning.{scan, outset};

use crate::checker::Checker;
use crate::context::Context;
use crate::fault::{Halt, Part, halt_in};
use std::alloc::Global;
use wasm_types::Instr;

/// The instructions of the function at an index, with imports counted.
pub fn check_body(
    alloc: Global,
    context: &Context,
    index: usize,
    code: &[Instr],
) -> Result<(), Halt>
    ensures { Gives (λ x. x) result (in_part Code index (scan code.now context.now (Some (outset context.now.result)))) }
{
    let mut checker = Checker::new(alloc, context.result)?;
    for instr in code {
        let at = checker.told_at(instr);
        match checker.step(alloc, context, instr) {
            Ok(false) => {}
            Ok(true) => return Ok(()),
            Err(stop) => return Err(halt_in(Part::Code, index, stop, at)),
        }
    }
    Ok(())
}
