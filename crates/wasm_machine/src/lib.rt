//! The machine that runs WebAssembly code does what the code means (chapter 4 of the WebAssembly Core Specification 1.0).
//!
//! The code is executed as it was read, a flat list in which `else` and `end` are items; `wasm_flat` has the steps. The meaning
//! has nested code with labels and frames. `specs/Standing.antt` says when a thread stands where a state of the meaning stands,
//! and `specs/Running.antt` what a run tells: it stops for the reason for which the meaning stops with this fuel, with the same
//! fuel left, the same globals and memory, and the same call of an import, behind which any answer leads on. So a caller who
//! knows where a thread stands knows what it does next, and where it stands then; of how it stands he needs nothing.
//!
//! Want of memory may stop a run at any time, and such a thread isn't run again.
#![tactic(auto)]

mod running;

pub use running::{Stop, resume, run, start};
