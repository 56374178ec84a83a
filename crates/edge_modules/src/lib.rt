//! Modules from their bytes to their links: read, validated, linked, and told in one line.
#![tactic(auto)]

mod fault;
mod loading;
mod text;

pub use fault::{ModuleFault, Stopped};
pub use loading::load;
pub use text::module_line;
