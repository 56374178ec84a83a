//! The functions of a module, as the machine calls them.

ghost use Rattle.std.specs.Prelude.{◌≡◌, [], ◌∷◌, IfOk};
ghost use Rattle.wasm_validate.specs.Spaces.{function_in, functions_in};
ghost use Rattle.wasm_jumps.specs.Exits.{Knows, AllKnow};
ghost use Rattle.module_machine.specs.Callees.{AreImports, IsDefined, IsDefinedAt, AreDefinitions};

use std::alloc::Global;
use wasm_flat::{Callee, Halt};
use wasm_jumps::Jumps;
use wasm_types::{Code, FuncType, Import, ImportKind, Locals, Module};

// An imported function has a type and no code.
fn imported<'a>(
    types: &'a [FuncType],
    import: &Import,
    none: &'a Locals,
) -> Result<Callee<'a>, Halt>
    requires { none.now ≡ [] }
    ensures { IfOk result (λ c. AreImports types.now (function_in import.now.kind) (c ∷ [])) }
{
    match import.kind {
        ImportKind::Function(kind) => match types.get(kind as usize) {
            Some(kind) => Ok(Callee {
                kind,
                locals: none,
                code: &[],
                exits: &[],
                defined: false,
            }),
            None => Err(Halt::Stuck),
        },
        _ => Err(Halt::Stuck),
    }
}

/// Those that a module imports.
pub fn imports_of<'a>(
    alloc: Global,
    types: &'a [FuncType],
    imports: &'a [Import],
    none: &'a Locals,
) -> Result<Vec<Callee<'a>>, Halt>
    requires { none.now ≡ [] }
    ensures { IfOk result (λ v. AreImports types.now (functions_in imports.now) v.items) }
{
    let mut callees = Vec::new(alloc);
    for import in imports {
        let callee = imported(types, import, none)?;
        callees.push(callee)?;
    }
    Ok(callees)
}

fn defined<'a>(
    types: &'a [FuncType],
    kind: u32,
    code: &'a Code,
    exits: &'a [u32],
) -> Result<Callee<'a>, Halt>
    requires { Knows code.now exits.now }
    ensures { IfOk result (λ c. IsDefined types.now kind code.now c) }
{
    match types.get(kind as usize) {
        Some(kind) => Ok(Callee {
            kind,
            locals: &code.locals,
            code: code.body.items(),
            exits,
            defined: true,
        }),
        None => Err(Halt::Stuck),
    }
}

// The one at this place among those that the module defines.
fn defined_at<'a>(whole: &'a Module, jumps: &'a Jumps, index: usize) -> Result<Callee<'a>, Halt>
    requires { AllKnow whole.now.code jumps.now }
    ensures { IfOk result (λ c. IsDefinedAt whole.now index c) }
{
    let kinds = whole.functions.items();
    let codes = whole.code.items();
    match kinds.get(index) {
        None => Err(Halt::Stuck),
        Some(kind) => match codes.get(index) {
            None => Err(Halt::Stuck),
            Some(code) => match jumps.get(index) {
                None => Err(Halt::Stuck),
                Some(exits) => defined(whole.types.items(), *kind, code, exits.items()),
            },
        },
    }
}

/// Those that it defines.
pub fn definitions_of<'a>(
    alloc: Global,
    whole: &'a Module,
    jumps: &'a Jumps,
) -> Result<Vec<Callee<'a>>, Halt>
    requires { AllKnow whole.now.code jumps.now }
    ensures { IfOk result (λ v. AreDefinitions whole.now.types whole.now.functions whole.now.code v.items) }
{
    let count = whole.code.items().len();
    if whole.functions.items().len() != count {
        return Err(Halt::Stuck);
    }
    let mut callees = Vec::new(alloc);
    for index in 0..count {
        let callee = defined_at(whole, jumps, index)?;
        callees.push(callee)?;
    }
    Ok(callees)
}
