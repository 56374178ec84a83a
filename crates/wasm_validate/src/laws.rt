//! Laws on nested instructions.

ghost use Rattle.std.specs.Prelude.{◌≡◌, ◌↔◌, List, Some, Ok};
ghost use Rattle.wasm_types.specs.declared.instructions.Instr.{Instr};
ghost use Rattle.wasm_types.specs.Nested.{Body, Nests};
ghost use Rattle.wasm_validate.specs.Rules.{Context};
ghost use Rattle.wasm_validate.specs.Scanning.{scan, outset};
ghost use Rattle.wasm_validate.specs.Typing.{IsTypedBody};
ghost use Rattle.wasm_validate.specs.Walking.{walk_body};

/// A flat list nests in one way only.
pub fn nests_once()
    ensures { (code : List Instr) (first second : Body) → Nests code first → Nests code second → first ≡ second }
{}

/// A flat list is checked as the nested instructions are: the first fault of both is one.
pub fn scanned_as_nested()
    ensures { (c : Context) (code : List Instr) (body : Body) → Nests code body → scan code c (Some (outset c.result)) ≡ walk_body c body }
{}

/// No fault is found exactly where the nested instructions are typed and keep the limit on the height of operands.
pub fn checked_as_typed()
    ensures { (c : Context) (body : Body) → (walk_body c body ≡ Ok tt) ↔ IsTypedBody c body }
{}
