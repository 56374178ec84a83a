//! A module's imports, start and memory, tested in the order in which faults are told.

ghost use Rattle.std.specs.Prelude.{◌≡◌, IfOk};
ghost use Rattle.std.specs.Option.{option_map};
ghost use Rattle.std.specs.List.{list_any, filter_map};
ghost use Rattle.edge_imports.specs.Links.{call_of, is_unknown, is_wrong, first_from, told_index, is_start, start_of, is_memory_export, has_memory, links_of, linked, IsLinkedAs};

use crate::find::call_named;
use crate::hostcall::Hostcall;
use crate::links::{LinkRefusal, Links};
use crate::types::{function_type, imported_type, is_of, is_plain, type_at};
use std::alloc::{AllocError, Global};
use wasm_types::{Export, ExportKind, FuncType, Import, Items, Module};

/// The call that an import names.
fn call_of(import: &Import) -> Option<Hostcall>
    ensures { result ≡ call_of import.now }
{
    match imported_type(import.kind) {
        None => None,
        Some(_) => call_named(import.module.items(), import.name.items()),
    }
}

/// Whether an import is no call of its call's type.
fn is_wrong(types: &[FuncType], import: &Import) -> bool
    ensures { result ≡ is_wrong types.now import.now }
{
    match call_of(import) {
        None => true,
        Some(call) => !is_of(call, type_at(types, imported_type(import.kind))),
    }
}

/// An index that is told.
fn told_index(index: usize) -> u32
    ensures { result ≡ told_index index }
{
    if index < 4_294_967_295 {
        index as u32
    } else {
        4_294_967_295
    }
}

/// The first import that names no call.
fn first_unknown(imports: &[Import]) -> Option<u32>
    ensures { result ≡ option_map told_index (first_from is_unknown 0 imports.now) }
{
    for i in 0..imports.len() {
        if call_of(&imports[i]).is_none() {
            return Some(told_index(i));
        }
    }
    None
}

/// The first import that isn't of its call's type.
fn first_wrong(types: &[FuncType], imports: &[Import]) -> Option<u32>
    ensures { result ≡ option_map told_index (first_from (is_wrong types.now) 0 imports.now) }
{
    for i in 0..imports.len() {
        if is_wrong(types, &imports[i]) {
            return Some(told_index(i));
        }
    }
    None
}

fn is_start(whole: &Module, export: &Export) -> bool
    ensures { result ≡ is_start whole.now export.now }
{
    matches!(export.kind, ExportKind::Function)
        && export.name.items() == b"_start".as_slice()
        && is_plain(function_type(whole, export.index))
}

/// The function without parameters and result that is exported as `_start`.
fn start_of(whole: &Module) -> Option<u32>
    ensures { result ≡ start_of whole.now }
{
    for export in whole.exports.items() {
        if is_start(whole, export) {
            return Some(export.index);
        }
    }
    None
}

fn is_memory_export(export: &Export) -> bool
    ensures { result ≡ is_memory_export export.now }
{
    matches!(export.kind, ExportKind::Memory) && export.name.items() == b"memory".as_slice()
}

fn exports_memory(exports: &[Export]) -> bool
    ensures { result ≡ list_any is_memory_export exports.now }
{
    for export in exports {
        if is_memory_export(export) {
            return true;
        }
    }
    false
}

/// Whether a memory is exported as `memory`, where there is an import.
fn has_memory(whole: &Module) -> bool
    ensures { result ≡ has_memory whole.now }
{
    whole.imports.items().is_empty() || exports_memory(whole.exports.items())
}

/// The call of each import.
fn calls_of(alloc: Global, imports: &[Import]) -> Result<Items<Hostcall>, AllocError>
    ensures { IfOk result (λ calls. calls ≡ filter_map call_of imports.now) }
{
    let mut calls = Vec::new(alloc);
    for import in imports {
        if let Some(call) = call_of(import) {
            calls.push(call)?;
        }
    }
    Ok(Items::of(calls))
}

/// Links a module to the calls that it imports.
pub fn links_of(alloc: Global, whole: &Module) -> Result<Links, LinkRefusal>
    ensures { IsLinkedAs (linked whole.now) result }
{
    if let Some(index) = first_unknown(whole.imports.items()) {
        return Err(LinkRefusal::UnknownImport(index));
    }
    if let Some(index) = first_wrong(whole.types.items(), whole.imports.items()) {
        return Err(LinkRefusal::WrongType(index));
    }
    let Some(start) = start_of(whole) else {
        return Err(LinkRefusal::NoStart);
    };
    if !has_memory(whole) {
        return Err(LinkRefusal::NoMemory);
    }
    match calls_of(alloc, whole.imports.items()) {
        Ok(calls) => Ok(Links { calls, start }),
        Err(_) => Err(LinkRefusal::OutOfMemory),
    }
}
