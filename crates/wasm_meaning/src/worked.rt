//! Worked programs, computed from the definitions alone.

ghost use Rattle.std.specs.Prelude.{◌≡◌, refl, [], ◌∷◌, Some, Err, IsOk};
ghost use Rattle.wasm_types.specs.declared.types.ValueType.TheVariants as types;
ghost use Rattle.wasm_types.specs.declared.values.Value.TheVariants.{I32};
ghost use Rattle.wasm_types.specs.declared.values.TrapKind.TheVariants as traps;
ghost use Rattle.wasm_types.specs.declared.instructions.Instr.TheVariants.{Unreachable};
ghost use Rattle.wasm_types.specs.Nested.{Done, Goes};
ghost use Rattle.wasm_meaning.specs.declared.off.Off.TheVariants.{Trap};
ghost use Rattle.wasm_meaning.specs.Runs.{Returned, Stopped, Called, OutOfFuel, runs, resumed};
ghost use Rattle.wasm_meaning.specs.Instance.{instance_of};
ghost use Rattle.wasm_types.specs.declared.instructions.LoadKind.TheVariants as loads;
ghost use Rattle.wasm_meaning.specs.Results.{result_of, calls_difference, selects, stores_and_loads, adds_to_global, leaves_with};
ghost use Rattle.wasm_meaning.specs.Worked.{run, told, program, three_nops, endless, counting, calls_itself, divides, loads_from, calls_entry, calls_import, branches_by, tests_for, places_at};

/// An empty body has no instruction.
pub fn returns_with_no_fuel()
    ensures { told (run 0 [] Done) ≡ (Returned, 0) }
{}

/// Three instructions with a unit too few, and with two more than they need.
pub fn executes_each_instruction()
    ensures two { told (run 2 [] three_nops) ≡ (OutOfFuel, 0) }
    ensures three { told (run 3 [] three_nops) ≡ (Returned, 0) }
    ensures five { told (run 5 [] three_nops) ≡ (Returned, 2) }
{}

/// A loop without end.
pub fn repeats()
    ensures { told (run 9 [] endless) ≡ (OutOfFuel, 0) }
{}

/// A loop of two turns, of eight instructions each.
pub fn counts()
    ensures { told (run 20 (types.I32 ∷ []) counting) ≡ (Returned, 4) }
{}

/// 2,047 calls make frames beside the first one, and the next one traps.
pub fn calls_itself_to_the_limit()
    ensures { told (run 5000 [] calls_itself) ≡ (Stopped (Trap traps.StackFull), 2952) }
{}

/// Each other way to trap. The instruction that traps costs its unit.
pub fn traps()
    ensures unreachable { told (run 4 [] (Goes Unreachable refl Done)) ≡ (Stopped (Trap traps.Unreachable), 3) }
    ensures divided_by_zero { told (run 4 [] (divides 1 0)) ≡ (Stopped (Trap traps.DivideByZero), 1) }
    ensures overflow { told (run 4 [] (divides 0x8000_0000 0xffff_ffff)) ≡ (Stopped (Trap traps.Overflow), 1) }
    ensures out_of_bounds { told (run 4 [] (loads_from 0)) ≡ (Stopped (Trap traps.OutOfBounds), 2) }
    ensures past_the_table { told (run 4 [] (calls_entry 4)) ≡ (Stopped (Trap traps.TableBounds), 2) }
    ensures no_function { told (run 4 [] (calls_entry 2)) ≡ (Stopped (Trap traps.NullElement), 2) }
    ensures another_type { told (run 4 [] (calls_entry 1)) ≡ (Stopped (Trap traps.IndirectType), 2) }
{}

/// A call of an import takes its argument; its answer is what the code goes on with.
pub fn calls_and_resumes()
    ensures called { told (run 3 [] calls_import) ≡ (Called 1 (I32 7 ∷ []), 1) }
    ensures taken { (run 3 [] calls_import).state.frame.operands ≡ [] }
    ensures answered { (resumed (Some (I32 5)) (run 3 [] calls_import).state).frame.operands ≡ I32 5 ∷ [] }
    ensures resumed { told (runs 1 (program [] calls_import) (resumed (Some (I32 5)) (run 3 [] calls_import).state)) ≡ (Returned, 0) }
{}

/// The first label leads out of the inner block, any other number out of both.
pub fn branches_by_a_table()
    ensures first { told (run 9 [] (branches_by 0)) ≡ (Returned, 3) }
    ensures other { told (run 9 [] (branches_by 1)) ≡ (Returned, 4) }
    ensures past { told (run 9 [] (branches_by 7)) ≡ (Returned, 4) }
{}

/// An `if` whose test fails goes on behind its end.
pub fn tests_without_else()
    ensures holds { told (run 9 [] (tests_for 1)) ≡ (Returned, 6) }
    ensures fails { told (run 9 [] (tests_for 0)) ≡ (Returned, 7) }
{}

/// Arguments stand in their order, `select` gives its first operand where the test isn't zero, bytes stand with the lowest one
/// first, and a branch out of a block leaves the block's result alone.
pub fn gives_results()
    ensures call { result_of (calls_difference 7 5) ≡ I32 2 ∷ [] }
    ensures wraps { result_of (calls_difference 5 7) ≡ I32 0xffff_fffe ∷ [] }
    ensures first { result_of (selects 1 2 3) ≡ I32 1 ∷ [] }
    ensures second { result_of (selects 1 2 0) ≡ I32 2 ∷ [] }
    ensures byte { result_of (stores_and_loads 0x0102_0304 loads.I32From8U 5) ≡ I32 2 ∷ [] }
    ensures sign { result_of (stores_and_loads 0xff00 loads.I32From8S 4) ≡ I32 0xffff_ffff ∷ [] }
    ensures global { result_of (adds_to_global 4) ≡ I32 7 ∷ [] }
    ensures block { result_of (leaves_with 1 2) ≡ I32 2 ∷ [] }
{}

/// A segment of no bytes may end where the memory ends, and not past it.
pub fn starts()
    ensures at_the_end { IsOk (instance_of (places_at 0)) }
    ensures past_the_end { instance_of (places_at 1) ≡ Err (Trap traps.Segment) }
{}
