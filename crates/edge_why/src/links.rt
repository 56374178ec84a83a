//! What a valid module imports that this host doesn't have, and what it doesn't export.

use edge_imports::{LinkRefusal, Row, call_named};
use std::alloc::AllocError;
use std::fmt::Write;
use wasm_reader::read_module;
use wasm_types::{Export, ExportKind, FuncType, Import, ImportKind, Module, ValueType};
use why_texts::quote;

/// The most imports that are told one by one.
const MOST_TOLD: usize = 40;

fn show_type(out: &mut String, kind: ValueType) -> Result<(), AllocError> {
    match kind {
        ValueType::I32 => out.push_str("i32"),
        ValueType::I64 => out.push_str("i64"),
    }
}

fn show_signature(
    out: &mut String,
    params: &[ValueType],
    gives: Option<ValueType>,
) -> Result<(), AllocError> {
    out.push('(')?;
    let mut between = "";
    for param in params {
        out.push_str(between)?;
        show_type(out, *param)?;
        between = " ";
    }
    out.push_str(") -> ")?;
    match gives {
        None => out.push_str("nothing"),
        Some(kind) => show_type(out, kind),
    }
}

/// `import 3 MODULE.NAME`.
fn show_import(out: &mut String, index: usize, import: &Import) -> Result<(), AllocError> {
    write!(out, "import {index} ")?;
    quote(out, import.module.items())?;
    out.push('.')?;
    quote(out, import.name.items())
}

/// Why a module's calls may not be there.
fn advice(from: &[u8]) -> &'static str {
    match from {
        b"env" => "nothing defines it: link the library that has it, or write it yourself",
        b"wasi_unstable" => "this is the old WASI: compile for wasi_snapshot_preview1",
        b"wasi_snapshot_preview1" =>
            "of WASI this host has proc_exit, fd_write, random_get, clock_time_get, environ_get, environ_sizes_get, args_get and args_sizes_get",
        _ => "this host doesn't have it (yet); docs/CALLS.md lists what it has",
    }
}

/// An import that is no function.
fn other_kind(kind: ImportKind) -> Option<&'static str> {
    match kind {
        ImportKind::Function(_) => None,
        ImportKind::Table(_) => Some("a table, which can't be imported here"),
        ImportKind::Memory(_) => Some(
            "a memory, which can't be imported here: link without --import-memory",
        ),
        ImportKind::Global(_) => Some("a global, which can't be imported here"),
    }
}

/// An import that isn't known. Answers whether it was told.
fn unknown_import(out: &mut String, index: usize, import: &Import) -> Result<bool, AllocError> {
    if let Some(kind) = other_kind(import.kind) {
        show_import(out, index, import)?;
        write!(out, " is {kind}\n")?;
        return Ok(true);
    }
    if call_named(import.module.items(), import.name.items()).is_some() {
        return Ok(false);
    }
    show_import(out, index, import)?;
    let words = advice(import.module.items());
    write!(out, ": {words}\n")?;
    Ok(true)
}

fn is_of(row: &Row, kind: &FuncType) -> bool {
    kind.params.items() == row.params && kind.result == row.result
}

/// An import of another type than the call has. Answers whether it was told.
fn wrong_import(
    out: &mut String,
    types: &[FuncType],
    index: usize,
    import: &Import,
) -> Result<bool, AllocError> {
    let Some(call) = call_named(import.module.items(), import.name.items()) else {
        return Ok(false);
    };
    let ImportKind::Function(place) = import.kind else {
        return Ok(false);
    };
    let Some(kind) = types.get(place as usize) else {
        return Ok(false);
    };
    let row = call.row();
    if is_of(&row, kind) {
        return Ok(false);
    }
    show_import(out, index, import)?;
    out.push_str(" is ")?;
    show_signature(out, kind.params.items(), kind.result)?;
    out.push_str("; the call is ")?;
    show_signature(out, row.params, row.result)?;
    out.push('\n')?;
    Ok(true)
}

fn export_named<'a>(exports: &'a [Export], name: &[u8]) -> Option<&'a Export> {
    for export in exports {
        if export.name.items() == name {
            return Some(export);
        }
    }
    None
}

/// Why there is no start.
fn start_hint(out: &mut String, whole: &Module) -> Result<(), AllocError> {
    match export_named(whole.exports.items(), b"_start") {
        None => out.push_str(
            "no function is exported as `_start`: in C, __attribute__((export_name(\"_start\"))) and -Wl,--no-entry; a `start` section alone isn't enough\n",
        ),
        Some(export) => match export.kind {
            ExportKind::Function => out.push_str(
                "the export `_start` is to be a function without parameters and result\n",
            ),
            _ => out.push_str("the export `_start` isn't a function\n"),
        },
    }
}

/// Why there is no memory.
fn memory_hint(out: &mut String, whole: &Module) -> Result<(), AllocError> {
    if let Some(export) = export_named(whole.exports.items(), b"memory") {
        return match export.kind {
            ExportKind::Memory => Ok(()),
            _ => out.push_str("the export `memory` isn't a memory\n"),
        };
    }
    if whole.memories.items().is_empty() {
        return out.push_str(
            "the module imports calls, so it has to have a memory and to export it as `memory`; it has none\n",
        );
    }
    out.push_str("the module's memory isn't exported as `memory`, and its imported calls need it\n")
}

/// All imports that can't be linked.
fn imports_hint(out: &mut String, whole: &Module) -> Result<(), AllocError> {
    let mut index = 0usize;
    let mut told = 0usize;
    for import in whole.imports.items() {
        if told < MOST_TOLD
            && (unknown_import(out, index, import)?
                || wrong_import(out, whole.types.items(), index, import)?)
        {
            told = told.saturating_add(1);
        }
        index = index.saturating_add(1);
    }
    Ok(())
}

/// The hint for a valid module that was refused by linking.
pub fn link_hint(out: &mut String, bytes: &[u8], refusal: LinkRefusal) -> Result<(), AllocError> {
    let Ok(whole) = read_module(*out.allocator(), bytes) else {
        return Ok(());
    };
    match refusal {
        LinkRefusal::NoStart => start_hint(out, &whole),
        LinkRefusal::NoMemory => memory_hint(out, &whole),
        _ => imports_hint(out, &whole),
    }
}
