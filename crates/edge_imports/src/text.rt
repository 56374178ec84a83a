//! The texts of refusals.

ghost use Rattle.std.specs.Prelude.{◌≡◌, IfOk, string_bytes};
ghost use Rattle.edge_imports.specs.Text.{refusal_text};

use crate::links::LinkRefusal;
use std::alloc::{AllocError, Global};

impl LinkRefusal {
    /// What is told of the refusal, without a line feed.
    pub fn text(self, alloc: Global) -> Result<String, AllocError>
        ensures { IfOk result (λ text. string_bytes text ≡ refusal_text self) }
    {
        match self {
            LinkRefusal::UnknownImport(index) => {
                format!(in alloc; "module: unknown-import {index}")
            }
            LinkRefusal::WrongType(index) => format!(in alloc; "module: wrong-type {index}"),
            LinkRefusal::NoStart => String::from_str(alloc, "module: no-start"),
            LinkRefusal::NoMemory => String::from_str(alloc, "module: no-memory"),
            LinkRefusal::OutOfMemory => String::from_str(alloc, "module: out-of-memory"),
        }
    }
}
