//! What a WebAssembly module is, as plain values: its types, its instructions and its parts.
//!
//! The names are those of chapter 2 of the WebAssembly Core Specification 1.0, in the profile without
//! floating point. An expression is a flat list of instructions, in which `Else` and `End` are items; its
//! own `End` is the last one. `specs/Nested.antt` says which flat lists are nested instructions.
//!
//! Each list inside these values is an [`Items`], which a contract sees as a list. Locals are kept by groups
//! ([`Locals`]); a contract sees one item a local.
#![tactic(auto)]

mod instructions;
pub mod limits;
mod locals;
mod modules;
mod types;
mod values;

pub use instructions::{Binary, Compare, Convert, Instr, LoadKind, StoreKind, Test, Unary};
pub use items::Items;
pub use locals::{Group, Locals};
pub use modules::{
    Code, Element, Export, ExportKind, GlobalItem, Import, ImportKind, Module, Segment,
};
pub use types::{FuncType, GlobalType, Limits, ValueType, same_result, same_type, same_types};
pub use values::{TrapKind, Value, Values};
