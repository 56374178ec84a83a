//! The state of a run.

use crate::cells::Cells;
use crate::desk::Desk;
use stacks::Stack;
use std::alloc::Global;
use wasm_types::{FuncType, Instr, Locals};

/// An open block: where a branch to it goes on, how many operands there are round it, and whether one is kept.
#[derive(Clone, Copy)]
pub struct Mark {
    pub looping: bool,
    pub target: usize,
    pub height: usize,
    pub keeps: bool,
}

/// A caller that waits: its function and place, how many marks, locals and operands stand below its own, and whether it has a
/// result.
#[derive(Clone, Copy)]
pub struct Frame {
    pub function: usize,
    pub place: usize,
    pub floor: usize,
    pub base: usize,
    pub height: usize,
    pub keeps: bool,
}

/// A function that the module imports, or defines, with the places where its blocks end.
#[derive(Clone, Copy)]
pub struct Callee<'a> {
    pub kind: &'a FuncType,
    pub locals: &'a Locals,
    pub code: &'a [Instr],
    pub exits: &'a [u32],
    pub defined: bool,
}

/// The function that runs, its place and its blocks, and its callers. An entry of the table names a function, or nothing.
#[derive(Drop)]
pub struct Thread<'a> {
    pub alloc: Global,
    pub callees: &'a [Callee<'a>],
    pub types: &'a [FuncType],
    pub table: &'a [Option<u32>],
    pub code: &'a [Instr],
    pub exits: &'a [u32],
    pub function: usize,
    pub place: usize,
    pub floor: usize,
    pub base: usize,
    pub height: usize,
    pub keeps: bool,
    pub desk: Desk,
    pub marks: Stack<Mark>,
    pub locals: Cells,
    pub frames: Stack<Frame>,
}
