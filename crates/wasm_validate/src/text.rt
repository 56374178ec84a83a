//! The texts of faults.

ghost use Rattle.std.specs.Prelude.{◌≡◌, IfOk, string_bytes};
ghost use Rattle.wasm_validate.specs.Text.{kind_name, part_name, fault_text};

use crate::fault::{Part, ValidFault, ValidKind};
use std::alloc::{AllocError, Global};

impl ValidKind {
    /// Its name in the texts of faults.
    pub fn name(self) -> &'static str
        ensures { result.now ≡ kind_name self }
    {
        match self {
            ValidKind::UnknownType => "unknown-type",
            ValidKind::UnknownFunction => "unknown-function",
            ValidKind::UnknownTable => "unknown-table",
            ValidKind::UnknownMemory => "unknown-memory",
            ValidKind::UnknownGlobal => "unknown-global",
            ValidKind::UnknownLocal => "unknown-local",
            ValidKind::UnknownLabel => "unknown-label",
            ValidKind::TypeMismatch => "type-mismatch",
            ValidKind::ImmutableGlobal => "immutable-global",
            ValidKind::BadAlign => "bad-align",
            ValidKind::BadConst => "bad-const",
            ValidKind::BadLimits => "bad-limits",
            ValidKind::BadStart => "bad-start",
            ValidKind::DuplicateExport => "duplicate-export",
            ValidKind::MoreThanOne => "more-than-one",
            ValidKind::TooHigh => "too-high",
            ValidKind::OutOfMemory => "out-of-memory",
        }
    }
}

impl Part {
    /// Its name in the texts of faults.
    pub fn name(self) -> &'static str
        ensures { result.now ≡ part_name self }
    {
        match self {
            Part::Import => "import",
            Part::Func => "func",
            Part::Table => "table",
            Part::Memory => "memory",
            Part::Global => "global",
            Part::Export => "export",
            Part::Start => "start",
            Part::Element => "element",
            Part::Code => "function",
            Part::Data => "data",
        }
    }
}

impl ValidFault {
    /// What is told of the fault, without a line feed.
    pub fn text(self, alloc: Global) -> Result<String, AllocError>
        ensures { IfOk result (λ text. string_bytes text ≡ fault_text self) }
    {
        let kind = self.kind.name();
        let index = self.index;
        match self.part {
            Part::Code => {
                let at = self.at;
                format!(in alloc; "module: {kind} in function {index} at {at}")
            }
            part => {
                let part = part.name();
                format!(in alloc; "module: {kind} in {part} {index}")
            }
        }
    }
}
