//! Constant expressions (section 3.3.7), of one instruction each.

ghost use Rattle.std.specs.Prelude.{◌≡◌, ◌&&◌, []};
ghost use Rattle.wasm_meaning.specs.Instance.{constant_of, offset_of, global_values};
ghost use Rattle.wasm_flat.specs.Made.{Gives};

use std::alloc::Global;
use wasm_flat::{Cells, Halt};
use wasm_types::{GlobalItem, Instr, Value};

fn constant_of(globals: &Cells, code: &[Instr]) -> Result<Value, Halt>
    ensures { Gives result (constant_of globals.now code.now) }
{
    match code.split_first() {
        Some((Instr::Const(value), _)) => Ok(*value),
        Some((Instr::GlobalGet(index), _)) => globals.get(*index as usize),
        _ => Err(Halt::Stuck),
    }
}

/// The place that a segment begins at.
pub fn offset_of(globals: &Cells, code: &[Instr]) -> Result<u32, Halt>
    ensures { Gives result (offset_of globals.now code.now) }
{
    match constant_of(globals, code)? {
        Value::I32(n) => Ok(n),
        Value::I64(_) => Err(Halt::Stuck),
    }
}

fn first_value(alloc: Global, item: &GlobalItem) -> Result<Value, Halt>
    ensures { Gives result (constant_of [] item.now.start) }
{
    let none = Cells::new(alloc);
    constant_of(&none, item.start.items())
}

/// The first values of globals.
pub fn global_values(alloc: Global, items: &[GlobalItem]) -> Result<Cells, Halt>
    ensures { Gives result (global_values items.now) }
{
    let mut values = Cells::new(alloc);
    for item in items {
        match first_value(alloc, item) {
            Ok(value) => values.push(value)?,
            Err(halt) => return Err(halt),
        }
    }
    Ok(values)
}

/// Whether both hold.
pub fn both(one: bool, other: bool) -> bool
    ensures { result ≡ one && other }
{
    one && other
}
