//! Modules and their parts (section 2.5).

use crate::instructions::Instr;
use crate::locals::Locals;
use crate::types::{FuncType, GlobalType, Limits};
use items::Items;

/// A module (section 2.5). Indices of functions, tables, memories and globals count the imported ones first.
#[derive(Debug, Drop)]
pub struct Module {
    pub types: Items<FuncType>,
    pub imports: Items<Import>,
    /// The index into `types` of each function that the module defines. Its code is in `code`, at the same place.
    pub functions: Items<u32>,
    pub tables: Items<Limits>,
    pub memories: Items<Limits>,
    pub globals: Items<GlobalItem>,
    pub exports: Items<Export>,
    pub start: Option<u32>,
    pub elements: Items<Element>,
    pub code: Items<Code>,
    pub segments: Items<Segment>,
}

/// An import (section 2.5.11). Both names are UTF-8.
#[derive(Debug, Drop)]
pub struct Import {
    pub module: Items<u8>,
    pub name: Items<u8>,
    pub kind: ImportKind,
}

/// What is imported; a function by the index of its type.
#[derive(Clone, Copy, Debug, PartialEq, Eq)]
pub enum ImportKind {
    Function(u32),
    Table(Limits),
    Memory(Limits),
    Global(GlobalType),
}

/// A global that the module defines, with the expression of its first value (section 2.5.6).
#[derive(Debug, Drop)]
pub struct GlobalItem {
    pub kind: GlobalType,
    pub start: Items<Instr>,
}

#[derive(Clone, Copy, Debug, PartialEq, Eq)]
pub enum ExportKind {
    Function,
    Table,
    Memory,
    Global,
}

/// An export (section 2.5.10). The name is UTF-8.
#[derive(Debug, Drop)]
pub struct Export {
    pub name: Items<u8>,
    pub kind: ExportKind,
    pub index: u32,
}

/// Functions that stand in a table from an offset on when the module starts (section 2.5.7).
#[derive(Debug, Drop)]
pub struct Element {
    pub table: u32,
    pub offset: Items<Instr>,
    pub functions: Items<u32>,
}

/// What a function does (section 2.5.3). Contracts see one item of `locals` per local; parameters aren't
/// among them.
#[derive(Debug, Drop)]
pub struct Code {
    pub locals: Locals,
    pub body: Items<Instr>,
}

/// Bytes that stand in a memory from an offset on when the module starts (section 2.5.8).
#[derive(Debug, Drop)]
pub struct Segment {
    pub memory: u32,
    pub offset: Items<Instr>,
    pub bytes: Items<u8>,
}
