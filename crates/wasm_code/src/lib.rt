//! Reads the expressions of WebAssembly modules: numbers, instructions and the blocks that they open.
//!
//! [`read_code`] answers Ok exactly on the grammar of expressions (chapter 5 of the WebAssembly Core
//! Specification 1.0, in the profile without floating point), and tells the first fault and its place. The
//! layer above reads the other parts of a module with the same numbers, vectors and scopes.
#![tactic(auto)]

mod code;
mod expressions;
mod fault;
mod instructions;
mod laws;
mod numbers;
mod opcodes;
mod scope;
mod vectors;

pub use code::read_code;
pub use expressions::read_expression;
pub use fault::{ReadFault, ReadKind, Stop, told_of};
pub use instructions::read_value_type;
pub use laws::{expressions_tell_first, numbers_tell_first};
pub use numbers::{read_count, read_s32, read_s64, read_u32};
pub use scope::{Scope, fault_at, short_of};
pub use vectors::{Field, Index, Vector, read_vector};
