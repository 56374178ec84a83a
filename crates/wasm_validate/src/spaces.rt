//! What the indices of a module name (section 2.5.1).

ghost use Rattle.std.specs.Prelude.{◌≡◌, ◌++◌, IfOk};
ghost use Rattle.wasm_validate.specs.Spaces.{functions_in, globals_in, kinds_of, size_in};

use std::alloc::{AllocError, Global};
use wasm_types::{ExportKind, GlobalItem, GlobalType, Import, ImportKind, Limits};

/// The types of the functions that are imported.
pub fn functions_in(alloc: Global, imports: &[Import]) -> Result<Vec<u32>, AllocError>
    ensures { IfOk result (λ v. v.items ≡ functions_in imports.now) }
{
    let mut found = Vec::new(alloc);
    for import in imports {
        if let ImportKind::Function(kind) = import.kind {
            found.push(kind)?;
        }
    }
    Ok(found)
}

/// The globals that are imported.
pub fn globals_in(alloc: Global, imports: &[Import]) -> Result<Vec<GlobalType>, AllocError>
    ensures { IfOk result (λ v. v.items ≡ globals_in imports.now) }
{
    let mut found = Vec::new(alloc);
    for import in imports {
        if let ImportKind::Global(kind) = import.kind {
            found.push(kind)?;
        }
    }
    Ok(found)
}

/// The same with those that the module defines.
pub fn all_globals(
    alloc: Global,
    imported: &[GlobalType],
    items: &[GlobalItem],
) -> Result<Vec<GlobalType>, AllocError>
    ensures { IfOk result (λ v. v.items ≡ imported.now ++ kinds_of items.now) }
{
    let mut found = imported.to_vec(alloc)?;
    for item in items {
        found.push(item.kind)?;
    }
    Ok(found)
}

/// The limits of an imported table, or of an imported memory.
pub fn size_in(wanted: ExportKind, kind: ImportKind) -> Option<Limits>
    ensures { result ≡ size_in wanted kind }
{
    match (wanted, kind) {
        (ExportKind::Table, ImportKind::Table(limits)) => Some(limits),
        (ExportKind::Memory, ImportKind::Memory(limits)) => Some(limits),
        _ => None,
    }
}
