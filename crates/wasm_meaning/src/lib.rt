//! What WebAssembly code means (chapter 4 of the WebAssembly Core Specification 1.0), apart from any machine.
//!
//! This crate has definitions: what one instruction does to the state of an instance (`specs/Acts.antt`, `Meaning.antt`), what
//! code does with so much fuel (`Runs.antt`), and what it finds when a module starts (`Instance.antt`). The functions here
//! are laws on these, and worked programs that are computed from them; none does anything when it is called.
#![tactic(auto)]

mod laws;
mod off;
mod worked;

pub use laws::fuel_adds_up;
pub use off::Off;
pub use worked::{
    branches_by_a_table, calls_and_resumes, calls_itself_to_the_limit, counts,
    executes_each_instruction, gives_results, repeats, returns_with_no_fuel, starts,
    tests_without_else, traps,
};
