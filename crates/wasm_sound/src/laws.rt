//! Laws on runs of typed code, and on where valid modules start.

ghost use Rattle.std.specs.Prelude.{◌≡◌, ℕ, Some, Ok, Err, [], slice_get};
ghost use Rattle.wasm_types.specs.declared.types.FuncType.{FuncType};
ghost use Rattle.wasm_types.specs.declared.modules.Module.{Module};
ghost use Rattle.wasm_types.specs.Nested.{Body};
ghost use Rattle.wasm_validate.specs.Rules.{Context, function_at};
ghost use Rattle.wasm_validate.specs.Valid.{IsValid};
ghost use Rattle.wasm_meaning.specs.declared.off.Off.TheVariants.{Stuck};
ghost use Rattle.wasm_meaning.specs.Frames.{Program, Function, State};
ghost use Rattle.wasm_meaning.specs.Runs.{runs, first};
ghost use Rattle.wasm_meaning.specs.Instance.{AllFunctions, IsProgram, Instance, instance_of};
ghost use Rattle.wasm_sound.specs.Small.{small, small_instance, small_program};
ghost use Rattle.wasm_sound.specs.Typed.{IsStuck, ProgramTyped, WorldTyped, StateTyped, StandsAt, within};

/// A valid module has an instance, or one of its segments is out of bounds; its program is typed, and so is the state in which
/// one of its functions begins that takes nothing.
pub fn valid_modules_start_typed()
    ensures unstuck { (m : Module) → IsValid m → AllFunctions m.imports → instance_of m ≡ Err Stuck → ⊥ }
    ensures program { (m : Module) (i : Instance) (p : Program) → IsValid m → AllFunctions m.imports → instance_of m ≡ Ok i → IsProgram m i p → ProgramTyped (within m) p }
    ensures first { (m : Module) (i : Instance) (p : Program) → IsValid m → AllFunctions m.imports → instance_of m ≡ Ok i → IsProgram m i p
        → (x : ℕ) (t : FuncType) (f : Function) (body : Body) → function_at (within m) x ≡ Ok t → t.params ≡ [] → slice_get p.functions x ≡ Some f → f.body ≡ Some body → StateTyped (within m) (first f body i.world) }
{}

/// Typed code is never stuck, whatever the fuel, and globals and memory stay of their types. Where it calls an import, any answer
/// of its type leads to typed code again.
pub fn typed_code_goes_on()
    ensures unstuck { (c : Context) (p : Program) (s : State) → ProgramTyped c p → StateTyped c s → (n : ℕ) → IsStuck (runs n p s).ending → ⊥ }
    ensures stands { (c : Context) (p : Program) (s : State) → ProgramTyped c p → StateTyped c s → (n : ℕ) → StandsAt c (runs n p s).ending (runs n p s).state }
    ensures world { (c : Context) (p : Program) (s : State) → ProgramTyped c p → StateTyped c s → (n : ℕ) → WorldTyped c (runs n p s).state.world }
{}

/// Both together, up to the first call of an import.
pub fn valid_code_is_never_stuck()
    ensures { (m : Module) (i : Instance) (p : Program) → IsValid m → AllFunctions m.imports → instance_of m ≡ Ok i → IsProgram m i p
        → (x : ℕ) (t : FuncType) (f : Function) (body : Body) → function_at (within m) x ≡ Ok t → t.params ≡ [] → slice_get p.functions x ≡ Some f → f.body ≡ Some body → (n : ℕ) → IsStuck (runs n p (first f body i.world)).ending → ⊥ }
{}

/// A module for which the premises of these laws hold.
pub fn some_module_meets_the_premises()
    ensures valid { IsValid small × AllFunctions small.imports }
    ensures starts { instance_of small ≡ Ok small_instance }
    ensures program { IsProgram small small_instance small_program }
{}
