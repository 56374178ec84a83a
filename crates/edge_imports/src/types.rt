//! Types of functions, compared with those of calls.

ghost use Rattle.std.specs.Prelude.{◌≡◌, ◌++◌, slice_get};
ghost use Rattle.std.specs.Option.{option_copied};
ghost use Rattle.std.specs.List.{filter_map};
ghost use Rattle.edge_imports.specs.Table.{row_of};
ghost use Rattle.edge_imports.specs.Links.{is_of_row, is_of, is_plain, type_at, imported_type, function_types};

use crate::hostcall::Hostcall;
use wasm_types::{FuncType, Import, ImportKind, Module, same_result, same_types};

/// Whether the function type is that of the call.
pub fn is_of(call: Hostcall, function: Option<&FuncType>) -> bool
    ensures { result ≡ is_of (row_of call) (option_copied function.entry) }
{
    match function {
        None => false,
        Some(function) => {
            let row = call.row();
            same_types(function.params.items(), row.params)
                && same_result(function.result, row.result)
        }
    }
}

/// Whether the function has neither parameters nor a result.
pub fn is_plain(function: Option<&FuncType>) -> bool
    ensures { result ≡ is_plain (option_copied function.entry) }
{
    match function {
        None => false,
        Some(function) => {
            same_types(function.params.items(), &[]) && same_result(function.result, None)
        }
    }
}

/// The index of an imported function's type.
pub fn imported_type(kind: ImportKind) -> Option<u32>
    ensures { result ≡ imported_type kind }
{
    match kind {
        ImportKind::Function(function) => Some(function),
        _ => None,
    }
}

/// The type at an index.
pub fn type_at(types: &[FuncType], index: Option<u32>) -> Option<&FuncType>
    ensures { option_copied result ≡ type_at types.now index }
{
    match index {
        None => None,
        Some(index) => types.get(index as usize),
    }
}

/// The index of the type of a function that is imported, or else defined.
fn type_among(imports: &[Import], functions: &[u32], index: u32) -> Option<u32>
    ensures { result ≡ slice_get (filter_map (λ i. imported_type i.kind) imports.now ++ functions.now) index }
{
    let mut left = index as usize;
    for import in imports {
        if let Some(function) = imported_type(import.kind) {
            if left == 0 {
                return Some(function);
            }
            left -= 1;
        }
    }
    match functions.get(left) {
        Some(function) => Some(*function),
        None => None,
    }
}

/// The type of a function.
pub fn function_type(whole: &Module, index: u32) -> Option<&FuncType>
    ensures { option_copied result ≡ type_at whole.now.types (slice_get (function_types whole.now) index) }
{
    let function = type_among(whole.imports.items(), whole.functions.items(), index);
    type_at(whole.types.items(), function)
}
