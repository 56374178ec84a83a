//! Whether a WebAssembly module is valid (chapter 3 of the WebAssembly Core Specification 1.0).
//!
//! [`validate`] answers with a [`Valid`] exactly where the module is valid (`specs/Valid.antt`; the types of nested
//! instructions are in `specs/Typing.antt`) and no more than 1,024 operands stand at once, and else tells the first
//! fault by its kind, part, index and instruction (`specs/Parts.antt`).
//!
//! Code is checked with the stacks of the specification's appendix. That this is a check of nested instructions is
//! told by the laws: a flat list nests in one way only ([`nests_once`]), its first fault is that of the nested
//! instructions ([`scanned_as_nested`]), and these have none exactly where they are typed ([`checked_as_typed`]).
#![tactic(auto)]

mod bodies;
mod checker;
mod code;
mod constants;
mod context;
mod fault;
mod instructions;
mod laws;
mod module;
mod operands;
mod parts;
mod spaces;
mod stack;
mod text;
mod valid;

pub use fault::{Part, ValidFault, ValidKind};
pub use laws::{checked_as_typed, nests_once, scanned_as_nested};
pub use valid::{Valid, validate};
