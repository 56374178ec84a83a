//! Laws on runs.

ghost use Rattle.std.specs.Prelude.{◌≡◌, ◌+◌, ℕ};
ghost use Rattle.wasm_meaning.specs.Frames.{Program, State};
ghost use Rattle.wasm_meaning.specs.Runs.{runs, continued};

/// What code does with m units of fuel and then, where it needs more, with n, is what it does with m + n.
pub fn fuel_adds_up()
    ensures { (m n : ℕ) (p : Program) (s : State) → runs (m + n) p s ≡ continued (runs m p s).ending p n (runs m p s) }
{}
