//! WebAssembly modules as bytes: read, and then validated.
//!
//! What is read has what [`wasm_validate::validate`] asks for, so nothing else can be wrong with a module.
#![tactic(auto)]

mod accepting;

pub use accepting::{Refusal, accept};
