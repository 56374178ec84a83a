//! The parts of a module but its code.

ghost use Rattle.std.specs.Prelude.{◌≡◌, ℕ, ◌≤◌, nat_lt, length};
ghost use Rattle.wasm_types.specs.declared.types.ValueType.TheVariants.{I32};
ghost use Rattle.wasm_validate.specs.declared.fault.Part.TheVariants as parts;
ghost use Rattle.wasm_validate.specs.Steps.{Gives};
ghost use Rattle.wasm_validate.specs.Spaces.{sizes_in};
ghost use Rattle.wasm_validate.specs.Parts.{imports_at, functions_at, globals_at, exports_at, elements_at, segments_at, import_type, within, sizes, all_present, constant, count_in, unknown, start, start_at, gives_nothing, all_below, element, segment};

use crate::constants::constant;
use crate::context::Context;
use crate::fault::{Halt, Part, Stop, ValidKind, fault_in, halt_in};
use crate::spaces::size_in;
use std::alloc::Global;
use std::collections::BTreeSet;
use wasm_types::{
    Element, Export, ExportKind, FuncType, GlobalItem, GlobalType, Import, ImportKind, Limits,
    Segment, ValueType,
};

fn import_type(types: &[FuncType], kind: ImportKind) -> Result<(), Stop>
    ensures { Gives (λ x. x) result (import_type types.now kind) }
{
    match kind {
        ImportKind::Function(index) => {
            if (index as usize) < types.len() {
                Ok(())
            } else {
                Err(Stop::Fault(ValidKind::UnknownType))
            }
        }
        _ => Ok(()),
    }
}

/// The types of imported functions.
#[tactic(auto, unfolding(crate::specs::Parts::imports_at))]
pub fn check_imports(types: &[FuncType], imports: &[Import]) -> Result<(), Halt>
    ensures { Gives (λ x. x) result (imports_at types.now imports.now) }
{
    for (i, import) in imports.iter().enumerate() {
        if let Err(stop) = import_type(types, import.kind) {
            return Err(halt_in(Part::Import, i, stop, 0));
        }
    }
    Ok(())
}

/// The types of the functions that the module defines.
#[tactic(auto, unfolding(crate::specs::Parts::functions_at))]
pub fn check_functions(types: &[FuncType], functions: &[u32]) -> Result<(), Halt>
    ensures { Gives (λ x. x) result (functions_at types.now functions.now) }
{
    for (i, index) in functions.iter().enumerate() {
        if types.len() <= *index as usize {
            return Err(Halt::Fault(fault_in(Part::Func, i, ValidKind::UnknownType, 0)));
        }
    }
    Ok(())
}

// Limits within a range (section 3.2.1).
fn within(range: u64, limits: Limits) -> bool
    ensures { result ≡ within range limits.least limits.most }
{
    match limits.most {
        None => u64::from(limits.least) <= range,
        Some(most) => {
            u64::from(limits.least) <= range && u64::from(most) <= range && limits.least <= most
        }
    }
}

/// The limits of imported tables or of imported memories, and how many there are.
pub fn check_sizes_in(range: u64, wanted: ExportKind, imports: &[Import]) -> Result<usize, Halt>
    ensures { Gives (λ n. n) result (sizes parts.Import range 0 0 (sizes_in wanted imports.now)) }
{
    let mut seen = 0;
    for (i, import) in imports.iter().enumerate() {
        if let Some(limits) = size_in(wanted, import.kind) {
            if !within(range, limits) {
                return Err(Halt::Fault(fault_in(Part::Import, i, ValidKind::BadLimits, 0)));
            }
            if 0 < seen {
                return Err(Halt::Fault(fault_in(Part::Import, i, ValidKind::MoreThanOne, 0)));
            }
            seen += 1;
        }
    }
    Ok(seen)
}

/// The limits of tables or memories, where so many are imported.
pub fn check_sizes(part: Part, range: u64, imported: usize, all: &[Limits]) -> Result<usize, Halt>
    ensures { Gives (λ n. n) result (sizes part range 0 imported (all_present all.now)) }
{
    let mut seen = imported;
    for (i, limits) in all.iter().enumerate() {
        if !within(range, *limits) {
            return Err(Halt::Fault(fault_in(part, i, ValidKind::BadLimits, 0)));
        }
        if 0 < seen {
            return Err(Halt::Fault(fault_in(part, i, ValidKind::MoreThanOne, 0)));
        }
        seen += 1;
    }
    Ok(seen)
}

/// The first values of globals.
#[tactic(auto, unfolding(crate::specs::Parts::globals_at))]
pub fn check_globals(
    alloc: Global,
    globals: &[GlobalType],
    items: &[GlobalItem],
) -> Result<(), Halt>
    ensures { Gives (λ x. x) result (globals_at globals.now items.now) }
{
    for (i, item) in items.iter().enumerate() {
        if let Err(stop) = constant(alloc, globals, item.kind.kind, item.start.items()) {
            return Err(halt_in(Part::Global, i, stop, 0));
        }
    }
    Ok(())
}

fn count_in(context: &Context, kind: ExportKind) -> usize
    ensures { result ≡ count_in context.now kind }
{
    match kind {
        ExportKind::Function => context.functions.len(),
        ExportKind::Table => context.tables,
        ExportKind::Memory => context.memories,
        ExportKind::Global => context.globals.len(),
    }
}

fn unknown(kind: ExportKind) -> ValidKind
    ensures { result ≡ unknown kind }
{
    match kind {
        ExportKind::Function => ValidKind::UnknownFunction,
        ExportKind::Table => ValidKind::UnknownTable,
        ExportKind::Memory => ValidKind::UnknownMemory,
        ExportKind::Global => ValidKind::UnknownGlobal,
    }
}

/// What is exported, and under which names.
#[tactic(auto, unfolding(crate::specs::Parts::exports_at))]
pub fn check_exports(alloc: Global, context: &Context, exports: &[Export]) -> Result<(), Halt>
    ensures { Gives (λ x. x) result (exports_at context.now exports.now) }
{
    let mut names: BTreeSet<&[u8]> = BTreeSet::new(alloc);
    for (i, export) in exports.iter().enumerate() {
        if count_in(context, export.kind) <= export.index as usize {
            let kind = unknown(export.kind);
            return Err(Halt::Fault(fault_in(Part::Export, i, kind, 0)));
        }
        if !names.insert(export.name.items())? {
            return Err(Halt::Fault(fault_in(Part::Export, i, ValidKind::DuplicateExport, 0)));
        }
    }
    Ok(())
}

fn gives_nothing(kind: Option<ValueType>) -> bool
    ensures { result ≡ gives_nothing kind }
{
    match kind {
        None => true,
        Some(_) => false,
    }
}

fn start(context: &Context, index: u32) -> Result<(), Stop>
    ensures { Gives (λ x. x) result (start context.now index) }
{
    let kind = context.function_at(index)?;
    if kind.params.items().is_empty() && gives_nothing(kind.result) {
        Ok(())
    } else {
        Err(Stop::Fault(ValidKind::BadStart))
    }
}

/// The start function.
pub fn check_start(context: &Context, function: Option<u32>) -> Result<(), Halt>
    ensures { Gives (λ x. x) result (start_at context.now function) }
{
    match function {
        None => Ok(()),
        Some(index) => match start(context, index) {
            Ok(()) => Ok(()),
            Err(stop) => Err(halt_in(Part::Start, 0, stop, 0)),
        },
    }
}

fn all_below(count: usize, indices: &[u32]) -> bool
    ensures { result ≡ all_below count indices.now }
{
    for index in indices {
        if count <= *index as usize {
            return false;
        }
    }
    true
}

fn element(alloc: Global, context: &Context, item: &Element) -> Result<(), Stop>
    ensures { Gives (λ x. x) result (element context.now item.now) }
{
    if context.tables <= item.table as usize {
        return Err(Stop::Fault(ValidKind::UnknownTable));
    }
    constant(alloc, context.globals, ValueType::I32, item.offset.items())?;
    if all_below(context.functions.len(), item.functions.items()) {
        Ok(())
    } else {
        Err(Stop::Fault(ValidKind::UnknownFunction))
    }
}

/// The element segments.
#[tactic(auto, unfolding(crate::specs::Parts::elements_at))]
pub fn check_elements(alloc: Global, context: &Context, items: &[Element]) -> Result<(), Halt>
    ensures { Gives (λ x. x) result (elements_at context.now items.now) }
{
    for (i, item) in items.iter().enumerate() {
        if let Err(stop) = element(alloc, context, item) {
            return Err(halt_in(Part::Element, i, stop, 0));
        }
    }
    Ok(())
}

fn segment(alloc: Global, context: &Context, item: &Segment) -> Result<(), Stop>
    ensures { Gives (λ x. x) result (segment context.now item.now) }
{
    if context.memories <= item.memory as usize {
        return Err(Stop::Fault(ValidKind::UnknownMemory));
    }
    constant(alloc, context.globals, ValueType::I32, item.offset.items())
}

/// The data segments.
#[tactic(auto, unfolding(crate::specs::Parts::segments_at))]
pub fn check_segments(alloc: Global, context: &Context, items: &[Segment]) -> Result<(), Halt>
    ensures { Gives (λ x. x) result (segments_at context.now items.now) }
{
    for (i, item) in items.iter().enumerate() {
        if let Err(stop) = segment(alloc, context, item) {
            return Err(halt_in(Part::Data, i, stop, 0));
        }
    }
    Ok(())
}
