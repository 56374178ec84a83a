//! Laws on where machines stand.

ghost use Rattle.std.specs.Prelude.{◌≡◌, ℕ, Some};
ghost use Rattle.wasm_types.specs.declared.modules.Module.{Module};
ghost use Rattle.wasm_memory.specs.Linear.{Linear};
ghost use Rattle.wasm_meaning.specs.World.{World};
ghost use Rattle.wasm_meaning.specs.Frames.{Program, State};
ghost use Rattle.wasm_meaning.specs.Runs.{runs};
ghost use Rattle.wasm_meaning.specs.Instance.{Instance, IsProgram};
ghost use Rattle.wasm_sound.specs.Typed.{IsStuck};
ghost use Rattle.module_machine.specs.declared.image.Image.{Image as AnImage};
ghost use Rattle.module_machine.specs.Shared.{IsImage};
ghost use Rattle.module_machine.specs.declared.machine.Machine.{Machine as AMachine};
ghost use Rattle.module_machine.specs.Standing.{Stands, Waits, memory_of, with_memory, in_memory};

/// The module of an image is a program.
pub fn an_image_has_a_program()
    ensures { (m : Module) (image : AnImage) (i : Instance) → IsImage m image → (p : Program) × IsProgram m i p }
{}

/// Code that a machine stands at is never stuck, whatever the fuel.
pub fn code_is_never_stuck()
    ensures { (p : Program) (s : State) (machine : AMachine) → Stands p s machine → (n : ℕ) → IsStuck (runs n p s).ending → ⊥ }
{}

/// A machine that waits for an import has the memory of the state that it waits at, and waits at the same place where the memory
/// is another one. So whatever a host writes between a call and its answer, the code goes on with that.
pub fn a_host_may_write()
    ensures memory { (p : Program) (x : ℕ) (s : State) (machine : AMachine) → Waits p x s machine → memory_of machine ≡ s.world.memory }
    ensures written { (p : Program) (x : ℕ) (s : State) (machine : AMachine) (m : Linear) → Waits p x s machine → Waits p x (in_memory m s) (with_memory (Some m) machine) }
{}
