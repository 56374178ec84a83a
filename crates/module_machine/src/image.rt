//! A module, as its guests run it.

ghost use Rattle.std.specs.Prelude.{◌≡◌, ◌++◌, [], IfOk, IsTrue};
ghost use Rattle.wasm_jumps.specs.Exits.{AllKnow};
ghost use Rattle.wasm_meaning.specs.Instance.{IsFunctionImport, AllFunctions};
ghost use Rattle.module_machine.specs.Callees.{AreCallees};
ghost use Rattle.module_machine.specs.Shared.{IsPrepared, IsImage};

use crate::functions::{definitions_of, imports_of};
use crate::prepared::Prepared;
use std::alloc::{AllocError, Global};
use wasm_flat::{Callee, Halt};
use wasm_jumps::Jumps;
use wasm_types::{FuncType, Import, ImportKind, Locals, Module};
use wasm_validate::Valid;

/// The functions of a module, imported ones first, its types and its table.
#[derive(Drop)]
pub struct Image<'a> {
    pub(crate) whole: &'a Module,
    pub(crate) callees: Vec<Callee<'a>>,
    pub(crate) types: &'a [FuncType],
    pub(crate) table: &'a [Option<u32>],
}

fn is_function(kind: &ImportKind) -> bool
    ensures holds { IsTrue result → IsFunctionImport kind.now }
    ensures fails { IsFunctionImport kind.now → IsTrue result }
{
    match kind {
        ImportKind::Function(_) => true,
        _ => false,
    }
}

fn are_functions(imports: &[Import]) -> bool
    ensures holds { IsTrue result → AllFunctions imports.now }
    ensures fails { AllFunctions imports.now → IsTrue result }
{
    for import in imports {
        if !is_function(&import.kind) {
            return false;
        }
    }
    true
}

/// Whether all imports of a module are functions.
pub fn imports_functions(valid: &Valid) -> bool
    ensures holds { IsTrue result → AllFunctions valid.now.imports }
    ensures fails { AllFunctions valid.now.imports → IsTrue result }
{
    are_functions(valid.module().imports.items())
}

fn callees_of<'a>(
    alloc: Global,
    whole: &'a Module,
    jumps: &'a Jumps,
    none: &'a Locals,
) -> Result<Vec<Callee<'a>>, Halt>
    requires none { none.now ≡ [] }
    requires jumps { AllKnow whole.now.code jumps.now }
    ensures { IfOk result (λ v. AreCallees whole.now v.items) }
{
    let mut callees = imports_of(alloc, whole.types.items(), whole.imports.items(), none)?;
    let definitions = definitions_of(alloc, whole, jumps)?;
    callees.extend_from_slice(definitions.as_slice())?;
    Ok(callees)
}

impl<'a> Image<'a> {
    /// The module's imports are all functions, which [`imports_functions`] tells.
    pub fn new(
        alloc: Global,
        valid: &'a Valid,
        prepared: &'a Prepared,
    ) -> Result<Image<'a>, AllocError>
        requires prepared { IsPrepared valid.now prepared.now }
        requires imports { AllFunctions valid.now.imports }
        ensures { IfOk result (IsImage valid.now) }
    {
        let whole = valid.module();
        match callees_of(alloc, whole, &prepared.jumps, &prepared.none) {
            Ok(callees) => Ok(Image {
                whole,
                callees,
                types: whole.types.items(),
                table: prepared.table.as_slice(),
            }),
            Err(_) => Err(AllocError),
        }
    }
}
