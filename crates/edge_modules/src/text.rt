//! The texts of faults, and the line that tells what a module is.

ghost use Rattle.std.specs.Prelude.{◌≡◌, IfOk, string_bytes};
ghost use Rattle.edge_modules.specs.Text.{kind_name, read_text, fault_text, pages_of, module_line};

use crate::fault::ModuleFault;
use edge_imports::Linked;
use std::alloc::{AllocError, Global};
use wasm_code::{ReadFault, ReadKind};
use wasm_types::{Limits, Module};

/// The name of a kind in the texts of faults.
fn kind_name(kind: ReadKind) -> &'static str
    ensures { result.now ≡ kind_name kind }
{
    match kind {
        ReadKind::Truncated => "truncated",
        ReadKind::BadMagic => "bad-magic",
        ReadKind::BadVersion => "bad-version",
        ReadKind::SectionOrder => "section-order",
        ReadKind::SectionSize => "section-size",
        ReadKind::BadLeb => "bad-leb",
        ReadKind::BadName => "bad-name",
        ReadKind::BadForm => "bad-form",
        ReadKind::TooLarge => "too-large",
        ReadKind::BadOpcode => "bad-opcode",
        ReadKind::FloatUsed => "float-used",
        ReadKind::NestedTooDeep => "nested-too-deep",
        ReadKind::CountMismatch => "count-mismatch",
        ReadKind::OutOfMemory => "out-of-memory",
    }
}

fn read_text(alloc: Global, fault: ReadFault) -> Result<String, AllocError>
    ensures { IfOk result (λ text. string_bytes text ≡ read_text fault) }
{
    let name = kind_name(fault.kind);
    let place = fault.place;
    format!(in alloc; "module: {name} at {place}")
}

impl ModuleFault {
    /// What is told of the fault, without a line feed.
    pub fn text(self, alloc: Global) -> Result<String, AllocError>
        ensures { IfOk result (λ text. string_bytes text ≡ fault_text self) }
    {
        match self {
            ModuleFault::Read(fault) => read_text(alloc, fault),
            ModuleFault::Valid(fault) => fault.text(alloc),
            ModuleFault::Link(refusal) => refusal.text(alloc),
        }
    }
}

fn pages_of(memories: &[Limits]) -> u32
    ensures { result ≡ pages_of memories.now }
{
    match memories.first() {
        None => 0,
        Some(memory) => memory.least,
    }
}

/// The line that tells what a module is, with its line feed.
pub fn module_line(alloc: Global, linked: &Linked) -> Result<String, AllocError>
    ensures { IfOk result (λ text. string_bytes text ≡ module_line linked.now.whole) }
{
    let whole = linked.valid().module();
    let functions = whole.functions.items().len();
    let imports = whole.imports.items().len();
    let pages = pages_of(whole.memories.items());
    format!(in alloc; "ok functions {functions} imports {imports} pages {pages}\n")
}
