//! Imports, globals, exports and segments (section 5.5).

ghost use Rattle.std.specs.Prelude.{◌≡◌, ◌++◌, IfOk};
ghost use Rattle.wasm_reader.specs.Grammar.{export_byte};
ghost use Rattle.wasm_writer.specs.Spelled.{import_kind_text, import_text, global_text, export_text, element_text, segment_text};

use crate::instructions::write_code;
use crate::numbers::write_number;
use crate::types::{write_global_type, write_limits, write_table};
use crate::vectors::{Index, Spelling, write_bytes, write_vector};
use std::alloc::AllocError;
use wasm_types::{Element, Export, ExportKind, GlobalItem, Import, ImportKind, Segment};

#[tactic(auto, unfolding(crate::specs::Spelled::import_kind_text))]
fn write_import_kind(out: &mut Vec<u8>, kind: ImportKind) -> Result<(), AllocError>
    ensures { IfOk result (λ _. out.new.items ≡ out.old.items ++ import_kind_text kind) }
{
    match kind {
        ImportKind::Function(kind) => {
            out.push(0x00)?;
            write_number(out, u64::from(kind))
        }
        ImportKind::Table(limits) => {
            out.push(0x01)?;
            write_table(out, limits)
        }
        ImportKind::Memory(limits) => {
            out.push(0x02)?;
            write_limits(out, limits)
        }
        ImportKind::Global(kind) => {
            out.push(0x03)?;
            write_global_type(out, kind)
        }
    }
}

#[tactic(auto, unfolding(crate::specs::Spelled::import_text))]
fn write_import(out: &mut Vec<u8>, item: &Import) -> Result<(), AllocError>
    ensures { IfOk result (λ _. out.new.items ≡ out.old.items ++ import_text item.now) }
{
    write_bytes(out, item.module.items())?;
    write_bytes(out, item.name.items())?;
    write_import_kind(out, item.kind)
}

/// An import as an item.
#[derive(Drop)]
pub(crate) struct Imports;

impl Spelling for Imports {
    type Item = Import;

    ghost text = { λ _. import_text };

    fn write(&self, out: &mut Vec<u8>, item: &Import) -> Result<(), AllocError> {
        write_import(out, item)
    }
}

#[tactic(auto, unfolding(crate::specs::Spelled::global_text))]
fn write_global(out: &mut Vec<u8>, item: &GlobalItem) -> Result<(), AllocError>
    ensures { IfOk result (λ _. out.new.items ≡ out.old.items ++ global_text item.now) }
{
    write_global_type(out, item.kind)?;
    write_code(out, item.start.items())
}

/// A global as an item.
#[derive(Drop)]
pub(crate) struct Globals;

impl Spelling for Globals {
    type Item = GlobalItem;

    ghost text = { λ _. global_text };

    fn write(&self, out: &mut Vec<u8>, item: &GlobalItem) -> Result<(), AllocError> {
        write_global(out, item)
    }
}

fn export_byte(kind: ExportKind) -> u8
    ensures { result ≡ export_byte kind }
{
    match kind {
        ExportKind::Function => 0x00,
        ExportKind::Table => 0x01,
        ExportKind::Memory => 0x02,
        ExportKind::Global => 0x03,
    }
}

#[tactic(auto, unfolding(crate::specs::Spelled::export_text))]
fn write_export(out: &mut Vec<u8>, item: &Export) -> Result<(), AllocError>
    ensures { IfOk result (λ _. out.new.items ≡ out.old.items ++ export_text item.now) }
{
    write_bytes(out, item.name.items())?;
    out.push(export_byte(item.kind))?;
    write_number(out, u64::from(item.index))
}

/// An export as an item.
#[derive(Drop)]
pub(crate) struct Exports;

impl Spelling for Exports {
    type Item = Export;

    ghost text = { λ _. export_text };

    fn write(&self, out: &mut Vec<u8>, item: &Export) -> Result<(), AllocError> {
        write_export(out, item)
    }
}

#[tactic(auto, unfolding(crate::specs::Spelled::element_text))]
fn write_element(out: &mut Vec<u8>, item: &Element) -> Result<(), AllocError>
    ensures { IfOk result (λ _. out.new.items ≡ out.old.items ++ element_text item.now) }
{
    write_number(out, u64::from(item.table))?;
    write_code(out, item.offset.items())?;
    write_vector(out, &Index, item.functions.items())
}

/// An element segment as an item.
#[derive(Drop)]
pub(crate) struct Elements;

impl Spelling for Elements {
    type Item = Element;

    ghost text = { λ _. element_text };

    fn write(&self, out: &mut Vec<u8>, item: &Element) -> Result<(), AllocError> {
        write_element(out, item)
    }
}

#[tactic(auto, unfolding(crate::specs::Spelled::segment_text))]
fn write_segment(out: &mut Vec<u8>, item: &Segment) -> Result<(), AllocError>
    ensures { IfOk result (λ _. out.new.items ≡ out.old.items ++ segment_text item.now) }
{
    write_number(out, u64::from(item.memory))?;
    write_code(out, item.offset.items())?;
    write_bytes(out, item.bytes.items())
}

/// A data segment as an item.
#[derive(Drop)]
pub(crate) struct Segments;

impl Spelling for Segments {
    type Item = Segment;

    ghost text = { λ _. segment_text };

    fn write(&self, out: &mut Vec<u8>, item: &Segment) -> Result<(), AllocError> {
        write_segment(out, item)
    }
}
