//! The machine over a valid module: a guest is made, started, run with so much fuel, resumed after each call of an import, and
//! hands its memory out in between (chapter 4 of the WebAssembly Core Specification 1.0).
//!
//! What all guests of a module share is made once for it: where its blocks end and its table ([`Prepared`]), and its functions as
//! they are called ([`Image`]). The code itself is executed as it was read and validated. A guest then costs its memory, its
//! globals and its stacks.
//!
//! Contracts speak of the meaning of code alone: of a program, and of the state of it that the machine stands at. A machine is
//! idle, or stands in code, or waits for the answer of an import; `specs/Standing.antt` has these three, and what a run tells.
//! How the machine keeps its state is known to none of them.
#![tactic(auto)]

mod functions;
mod image;
mod laws;
mod machine;
mod prepared;

pub use image::{Image, imports_functions};
pub use laws::{a_host_may_write, an_image_has_a_program, code_is_never_stuck};
pub use machine::Machine;
pub use prepared::Prepared;
pub use wasm_instance::NewFault;
pub use wasm_machine::Stop;
