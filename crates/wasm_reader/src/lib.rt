//! Reads WebAssembly modules: [`read_module`] answers Ok exactly on the binary grammar (chapter 5 of the
//! WebAssembly Core Specification 1.0, in the profile without floating point and with this host's limits), gives
//! the one module that the bytes spell ([`spells_one_module`]), and else tells the first fault and its place.
//!
//! That the fault is the first one is a law above the reading: the clause `first`, and of the parts by themselves
//! [`parts_tell_first`] and [`sections_tell_first`].
//!
//! Reading goes once from left to right, and takes memory for what was read, not for counts: of locals, which a few bytes
//! may ask for by thousands, it keeps the groups.
#![tactic(auto)]

mod bodies;
mod laws;
mod module;
mod names;
mod parts;
mod sections;
mod types;

pub use laws::{parts_tell_first, sections_tell_first, spells_one_module};
pub use module::read_module;
pub use wasm_code::{ReadFault, ReadKind};
