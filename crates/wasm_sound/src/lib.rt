//! Valid code never gets stuck: it never lacks an operand, a label or an index.
//!
//! `specs/Typed.antt` says what it is for a state to stand where typed code stands. The functions here are laws: a valid module
//! starts in such a state, each instruction leads to such a state again or traps, and so does each answer of an import. None
//! of them does anything when it is called.
#![tactic(auto)]

mod laws;

pub use laws::{
    some_module_meets_the_premises, typed_code_goes_on, valid_code_is_never_stuck,
    valid_modules_start_typed,
};
