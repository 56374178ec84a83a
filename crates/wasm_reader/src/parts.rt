//! Imports, globals, exports and segments (section 5.5).

ghost use Rattle.std.specs.Prelude.{◌≡◌, Some};
ghost use Rattle.wasm_code.specs.Reading.{Gives};
ghost use Rattle.wasm_reader.specs.Reading.{import_kind_at, import_at, export_kind_at, export_at, global_at, element_at, segment_at, start_at};

use crate::names::{read_bytes, read_name};
use crate::types::{read_global_type, read_memory, read_table};
use std::alloc::Global;
use wasm_code::{
    Field, Index, ReadKind, Scope, Stop, fault_at, read_expression, read_u32, read_vector, short_of,
};
use wasm_types::{Element, Export, ExportKind, GlobalItem, Import, ImportKind, Items, Segment};

#[tactic(auto, unfolding(crate::specs::Reading::import_kind_at))]
fn read_import_kind(scope: Scope, bytes: &[u8]) -> Result<(ImportKind, &[u8]), Stop>
    ensures { Gives (λ x. (x.0, x.1.now)) result (import_kind_at scope bytes.now) }
{
    match bytes {
        [] => Err(Stop::Fault(short_of(scope))),
        [0x00, rest @ ..] => {
            let (kind, rest) = read_u32(scope, rest)?;
            Ok((ImportKind::Function(kind), rest))
        }
        [0x01, rest @ ..] => {
            let (limits, rest) = read_table(scope, rest)?;
            Ok((ImportKind::Table(limits), rest))
        }
        [0x02, rest @ ..] => {
            let (limits, rest) = read_memory(scope, rest)?;
            Ok((ImportKind::Memory(limits), rest))
        }
        [0x03, rest @ ..] => {
            let (kind, rest) = read_global_type(scope, rest)?;
            Ok((ImportKind::Global(kind), rest))
        }
        [_, ..] => Err(Stop::Fault(fault_at(ReadKind::BadForm, scope, bytes))),
    }
}

#[tactic(auto, unfolding(crate::specs::Reading::import_at))]
fn read_import(alloc: Global, scope: Scope, bytes: &[u8]) -> Result<(Import, &[u8]), Stop>
    ensures { Gives (λ x. (x.0, x.1.now)) result (import_at scope bytes.now) }
{
    let (module, rest) = read_name(alloc, scope, bytes)?;
    let (name, rest) = read_name(alloc, scope, rest)?;
    let (kind, rest) = read_import_kind(scope, rest)?;
    Ok((Import { module, name, kind }, rest))
}

/// An import as an item.
#[derive(Drop)]
pub(crate) struct Imports;

impl Field for Imports {
    type Item = Import;

    ghost reading = { λ _. import_at };

    fn read<'a>(
        &self,
        alloc: Global,
        scope: Scope,
        bytes: &'a [u8],
    ) -> Result<(Import, &'a [u8]), Stop> {
        read_import(alloc, scope, bytes)
    }
}

#[tactic(auto, unfolding(crate::specs::Reading::global_at))]
fn read_global(alloc: Global, scope: Scope, bytes: &[u8]) -> Result<(GlobalItem, &[u8]), Stop>
    ensures { Gives (λ x. (x.0, x.1.now)) result (global_at scope bytes.now) }
{
    let (kind, rest) = read_global_type(scope, bytes)?;
    let (start, rest) = read_expression(alloc, scope, rest)?;
    Ok((
        GlobalItem {
            kind,
            start: Items::of(start),
        },
        rest,
    ))
}

/// A global as an item.
#[derive(Drop)]
pub(crate) struct Globals;

impl Field for Globals {
    type Item = GlobalItem;

    ghost reading = { λ _. global_at };

    fn read<'a>(
        &self,
        alloc: Global,
        scope: Scope,
        bytes: &'a [u8],
    ) -> Result<(GlobalItem, &'a [u8]), Stop> {
        read_global(alloc, scope, bytes)
    }
}

#[tactic(auto, unfolding(crate::specs::Reading::export_kind_at))]
fn read_export_kind(scope: Scope, bytes: &[u8]) -> Result<(ExportKind, &[u8]), Stop>
    ensures { Gives (λ x. (x.0, x.1.now)) result (export_kind_at scope bytes.now) }
{
    match bytes {
        [] => Err(Stop::Fault(short_of(scope))),
        [0x00, rest @ ..] => Ok((ExportKind::Function, rest)),
        [0x01, rest @ ..] => Ok((ExportKind::Table, rest)),
        [0x02, rest @ ..] => Ok((ExportKind::Memory, rest)),
        [0x03, rest @ ..] => Ok((ExportKind::Global, rest)),
        [_, ..] => Err(Stop::Fault(fault_at(ReadKind::BadForm, scope, bytes))),
    }
}

#[tactic(auto, unfolding(crate::specs::Reading::export_at))]
fn read_export(alloc: Global, scope: Scope, bytes: &[u8]) -> Result<(Export, &[u8]), Stop>
    ensures { Gives (λ x. (x.0, x.1.now)) result (export_at scope bytes.now) }
{
    let (name, rest) = read_name(alloc, scope, bytes)?;
    let (kind, rest) = read_export_kind(scope, rest)?;
    let (index, rest) = read_u32(scope, rest)?;
    Ok((Export { name, kind, index }, rest))
}

/// An export as an item.
#[derive(Drop)]
pub(crate) struct Exports;

impl Field for Exports {
    type Item = Export;

    ghost reading = { λ _. export_at };

    fn read<'a>(
        &self,
        alloc: Global,
        scope: Scope,
        bytes: &'a [u8],
    ) -> Result<(Export, &'a [u8]), Stop> {
        read_export(alloc, scope, bytes)
    }
}

#[tactic(auto, unfolding(crate::specs::Reading::element_at))]
fn read_element(alloc: Global, scope: Scope, bytes: &[u8]) -> Result<(Element, &[u8]), Stop>
    ensures { Gives (λ x. (x.0, x.1.now)) result (element_at scope bytes.now) }
{
    let (table, rest) = read_u32(scope, bytes)?;
    let (offset, rest) = read_expression(alloc, scope, rest)?;
    let (functions, rest) = read_vector(&Index, u32::MAX, alloc, scope, rest)?;
    Ok((
        Element {
            table,
            offset: Items::of(offset),
            functions,
        },
        rest,
    ))
}

/// An element segment as an item.
#[derive(Drop)]
pub(crate) struct Elements;

impl Field for Elements {
    type Item = Element;

    ghost reading = { λ _. element_at };

    fn read<'a>(
        &self,
        alloc: Global,
        scope: Scope,
        bytes: &'a [u8],
    ) -> Result<(Element, &'a [u8]), Stop> {
        read_element(alloc, scope, bytes)
    }
}

#[tactic(auto, unfolding(crate::specs::Reading::segment_at))]
fn read_segment(alloc: Global, scope: Scope, bytes: &[u8]) -> Result<(Segment, &[u8]), Stop>
    ensures { Gives (λ x. (x.0, x.1.now)) result (segment_at scope bytes.now) }
{
    let (memory, rest) = read_u32(scope, bytes)?;
    let (offset, rest) = read_expression(alloc, scope, rest)?;
    let (inside, rest) = read_bytes(alloc, scope, rest)?;
    Ok((
        Segment {
            memory,
            offset: Items::of(offset),
            bytes: inside,
        },
        rest,
    ))
}

/// A data segment as an item.
#[derive(Drop)]
pub(crate) struct Segments;

impl Field for Segments {
    type Item = Segment;

    ghost reading = { λ _. segment_at };

    fn read<'a>(
        &self,
        alloc: Global,
        scope: Scope,
        bytes: &'a [u8],
    ) -> Result<(Segment, &'a [u8]), Stop> {
        read_segment(alloc, scope, bytes)
    }
}

#[tactic(auto, unfolding(crate::specs::Reading::start_at))]
fn read_start(scope: Scope, bytes: &[u8]) -> Result<(Option<u32>, &[u8]), Stop>
    ensures { Gives (λ x. (x.0, x.1.now)) result (start_at scope bytes.now) }
{
    let (function, rest) = read_u32(scope, bytes)?;
    Ok((Some(function), rest))
}

/// The content of a start section.
#[derive(Drop)]
pub(crate) struct Start;

impl Field for Start {
    type Item = Option<u32>;

    ghost reading = { λ _. start_at };

    fn read<'a>(
        &self,
        _alloc: Global,
        scope: Scope,
        bytes: &'a [u8],
    ) -> Result<(Option<u32>, &'a [u8]), Stop> {
        read_start(scope, bytes)
    }
}
