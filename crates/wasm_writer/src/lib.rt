//! Writes WebAssembly modules in the binary format (chapter 5 of the WebAssembly Core Specification 1.0, in the profile
//! without floating point).
//!
//! [`write_module`] promises two things: where any bytes have the module, those that it gives have it, and no bytes that
//! have it are fewer. So numbers have their shortest spellings (section 5.2.2), locals stand in the fewest groups
//! (section 5.5.13), and no empty section (section 5.5.2) or custom section (section 5.5.3) stands.
//! `specs/Spelled.antt` has the bytes part by part.
//!
//! It fails only where memory runs out, and takes no stack for the length of a list.
#![tactic(auto)]

mod bodies;
pub mod build;
mod instructions;
mod module;
mod numbers;
mod opcodes;
mod parts;
mod sections;
mod types;
mod vectors;

pub use module::write_module;
