//! A whole module, part by part.

ghost use Rattle.std.specs.Prelude.{◌≡◌, ◌+◌, ◌++◌, ◌≤◌, IfOk, length};
ghost use Rattle.basics.specs.Stops.{Gives};
ghost use Rattle.wasm_validate.specs.Spaces.{functions_in, tables_of, memories_of};
ghost use Rattle.wasm_validate.specs.Parts.{later_fault, tables_at, memories_at, rest_fault, first_fault};

use crate::code::check_code;
use crate::context::Context;
use crate::fault::{Halt, Part};
use crate::parts::{
    check_elements, check_exports, check_functions, check_globals, check_imports, check_segments,
    check_sizes, check_sizes_in, check_start,
};
use crate::spaces::{all_globals, functions_in, globals_in};
use std::alloc::{AllocError, Global};
use wasm_types::{ExportKind, Import, Module};

// The parts behind the globals; the first function that the module defines has a number.
fn check_later(alloc: Global, context: &Context, first: usize, whole: &Module) -> Result<(), Halt>
    requires { first + length whole.now.code ≤ usize.MAX }
    ensures { Gives (λ x. x) result (later_fault context.now first whole.now) }
{
    check_exports(alloc, context, whole.exports.items())?;
    check_start(context, whole.start)?;
    check_elements(alloc, context, whole.elements.items())?;
    check_code(
        alloc,
        context,
        first,
        whole.functions.items(),
        whole.code.items(),
    )?;
    check_segments(alloc, context, whole.segments.items())
}

// What the entries of a table (section 3.2.4) and the pages of a memory (section 3.2.5) don't exceed.
const TABLE_RANGE: u64 = 4_294_967_296;

const MEMORY_RANGE: u64 = 65_536;

// The limits of tables, and how many there are.
#[tactic(auto, unfolding(crate::specs::Parts::tables_at))]
fn check_tables(whole: &Module) -> Result<usize, Halt>
    ensures { Gives (λ n. n) result (tables_at whole.now) }
{
    let imported = check_sizes_in(TABLE_RANGE, ExportKind::Table, whole.imports.items())?;
    check_sizes(Part::Table, TABLE_RANGE, imported, whole.tables.items())
}

// The limits of memories, and how many there are.
#[tactic(auto, unfolding(crate::specs::Parts::memories_at))]
fn check_memories(whole: &Module) -> Result<usize, Halt>
    ensures { Gives (λ n. n) result (memories_at whole.now) }
{
    let imported = check_sizes_in(MEMORY_RANGE, ExportKind::Memory, whole.imports.items())?;
    check_sizes(Part::Memory, MEMORY_RANGE, imported, whole.memories.items())
}

// The types of all functions, the imported ones first.
fn all_functions(alloc: Global, imports: &[Import], own: &[u32]) -> Result<Vec<u32>, AllocError>
    ensures { IfOk result (λ v. v.items ≡ functions_in imports.now ++ own.now) }
{
    let mut functions = functions_in(alloc, imports)?;
    functions.extend_from_slice(own)?;
    Ok(functions)
}

// The globals, and the parts behind them.
fn check_rest(alloc: Global, tables: usize, memories: usize, whole: &Module) -> Result<(), Halt>
    requires tables_is { tables ≡ length (tables_of whole.now) }
    requires memories_is { memories ≡ length (memories_of whole.now) }
    requires one_count { length whole.now.code ≡ length whole.now.functions }
    ensures { Gives (λ x. x) result (rest_fault whole.now) }
{
    let imports = whole.imports.items();
    let own = whole.functions.items();
    let imported = globals_in(alloc, imports)?;
    check_globals(alloc, &imported, whole.globals.items())?;
    let globals = all_globals(alloc, &imported, whole.globals.items())?;
    let functions = all_functions(alloc, imports, own)?;
    let context = Context {
        types: whole.types.items(),
        functions: &functions,
        globals: &globals,
        tables,
        memories,
        locals: &[],
        result: None,
    };
    check_later(alloc, &context, functions.len() - own.len(), whole)
}

/// The parts of a module in their order.
pub fn check_module(alloc: Global, whole: &Module) -> Result<(), Halt>
    requires { length whole.now.code ≡ length whole.now.functions }
    ensures { Gives (λ x. x) result (first_fault whole.now) }
{
    check_imports(whole.types.items(), whole.imports.items())?;
    check_functions(whole.types.items(), whole.functions.items())?;
    let tables = check_tables(whole)?;
    let memories = check_memories(whole)?;
    check_rest(alloc, tables, memories, whole)
}
