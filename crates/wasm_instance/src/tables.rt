//! The table, and the functions that stand in it when the module starts.

ghost use Rattle.std.specs.Prelude.{◌≡◌, ◌+◌, ◌≤◌, length, map, Some, IfOk};
ghost use Rattle.wasm_meaning.specs.Instance.{empty_table};
ghost use Rattle.wasm_flat.specs.Made.{Gives, Makes};
ghost use Rattle.wasm_instance.specs.Placing.{element_fits, elements_fit, element_placed, elements_placed, with_part};

use crate::constants::{both, offset_of};
use std::alloc::{AllocError, Global};
use wasm_flat::{Cells, Halt};
use wasm_types::{Element, Limits};

/// The table without entries, or with as many as it begins with, each of which names nothing.
pub fn empty_table(alloc: Global, tables: &[Limits]) -> Result<Vec<Option<u32>>, AllocError>
    ensures { IfOk result (λ v. v.items ≡ empty_table tables.now) }
{
    match tables.split_first() {
        None => Ok(Vec::new(alloc)),
        Some((limits, _)) => vec![in alloc; None; limits.least as usize],
    }
}

fn fits(globals: &Cells, element: &Element, size: usize) -> Result<bool, Halt>
    ensures { Gives result (element_fits size globals.now element.now) }
{
    let at = offset_of(globals, element.offset.items())? as usize;
    let len = element.functions.items().len();
    Ok(len <= size && at <= size - len)
}

/// Whether all elements end within so many entries.
pub fn elements_fit(globals: &Cells, elements: &[Element], size: usize) -> Result<bool, Halt>
    ensures { Gives result (elements_fit size globals.now elements.now) }
{
    let mut fit = true;
    for element in elements {
        match fits(globals, element, size) {
            Ok(one) => fit = both(one, fit),
            Err(halt) => return Err(halt),
        }
    }
    Ok(fit)
}

fn entries(alloc: Global, functions: &[u32]) -> Result<Vec<Option<u32>>, AllocError>
    ensures { IfOk result (λ v. v.items ≡ map Some functions.now) }
{
    let mut entries = Vec::new(alloc);
    for function in functions {
        entries.push(Some(*function))?;
    }
    Ok(entries)
}

fn put(table: &mut Vec<Option<u32>>, at: usize, entries: &[Option<u32>])
    requires { at + length entries.now ≤ length table.old.items }
    ensures { table.new.items ≡ with_part at entries.now table.old.items }
{
    table
        .slice_mut(at..at + entries.len())
        .copy_from_slice(entries);
}

// One that doesn't fit isn't written.
fn place(
    alloc: Global,
    globals: &Cells,
    element: &Element,
    table: &mut Vec<Option<u32>>,
) -> Result<(), Halt>
    ensures { Makes result table.new.items (element_placed globals.now element.now table.old.items) }
{
    let at = offset_of(globals, element.offset.items())? as usize;
    let entries = entries(alloc, element.functions.items())?;
    if entries.len() <= table.len() && at <= table.len() - entries.len() {
        put(table, at, entries.as_slice());
        Ok(())
    } else {
        Err(Halt::Memory)
    }
}

/// Writes the functions of all elements into the table, one element after another.
pub fn place_elements(
    alloc: Global,
    globals: &Cells,
    elements: &[Element],
    table: &mut Vec<Option<u32>>,
) -> Result<(), Halt>
    ensures { Makes result table.new.items (elements_placed globals.now elements.now table.old.items) }
{
    for element in elements {
        match place(alloc, globals, element, table) {
            Ok(()) => {}
            Err(halt) => return Err(halt),
        }
    }
    Ok(())
}
