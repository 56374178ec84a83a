//! The check of a body, instruction by instruction.

ghost use Rattle.std.specs.Prelude.{◌≡◌, ◌<◌, ◌≤◌, IfOk};
ghost use Rattle.wasm_validate.specs.Operands.{stacked, missing};
ghost use Rattle.wasm_validate.specs.Scanning.{label_of, opened, parting, closing, step, told_at, outset, Steps};

use crate::context::Context;
use crate::fault::{Stop, ValidKind};
use crate::instructions::plain;
use crate::operands::Operands;
use crate::stack::Stack;
use std::alloc::{AllocFailed, Global};
use std::mem;
use wasm_types::{Instr, ValueType};

/// Which block is open.
#[derive(Clone, Copy, Debug, PartialEq, Eq)]
pub enum BlockKind {
    Block,
    Loop,
    /// The first part of an `if`.
    If,
    /// The second part of an `if`.
    Else,
}

/// A block that is open: its instruction's number, its result, and its operands.
#[derive(Drop)]
pub struct Open {
    pub block_kind: BlockKind,
    pub result: Option<ValueType>,
    pub number: usize,
    pub operands: Operands,
}

/// The open blocks, and the number of the next instruction.
#[derive(Drop)]
pub struct Checker {
    pub number: usize,
    pub current: Open,
    pub outer: Stack<Open>,
    pub labels: Stack<Option<ValueType>>,
}

fn label_of(block_kind: BlockKind, kind: Option<ValueType>) -> Option<ValueType>
    ensures { result ≡ label_of block_kind kind }
{
    match block_kind {
        BlockKind::Loop => None,
        _ => kind,
    }
}

// Whether an `if` ends that has a result and no `else`.
fn missing(block_kind: BlockKind, kind: Option<ValueType>) -> Option<ValidKind>
    ensures { result ≡ missing block_kind kind }
{
    match (block_kind, kind) {
        (BlockKind::If, Some(_)) => Some(ValidKind::TypeMismatch),
        _ => None,
    }
}

impl Checker {
    /// Before the first instruction of a body with this result.
    pub fn new(
        alloc: Global,
        kind: Option<ValueType>,
    ) -> Result<Checker, AllocFailed<Option<ValueType>>>
        ensures { IfOk result (λ s. s ≡ outset kind) }
    {
        let mut labels = Stack::new(alloc);
        labels.push(kind)?;
        let operands = Operands {
            height: 0,
            unreachable: false,
            known: Stack::new(alloc),
        };
        let current = Open {
            block_kind: BlockKind::Block,
            result: kind,
            number: 0,
            operands,
        };
        Ok(Checker {
            number: 0,
            current,
            outer: Stack::new(alloc),
            labels,
        })
    }

    fn open(
        &mut self,
        alloc: Global,
        block_kind: BlockKind,
        kind: Option<ValueType>,
    ) -> Result<bool, Stop>
        requires room { self.old.number < usize.MAX }
        requires low { stacked self.old.current.operands ≤ 1024 }
        ensures { Steps result self.new (Ok (Some (opened block_kind kind self.old self.old.current.operands))) }
    {
        let operands = Operands {
            height: self.current.operands.height + self.current.operands.known.len(),
            unreachable: false,
            known: Stack::new(alloc),
        };
        let inner = Open {
            block_kind,
            result: kind,
            number: self.number,
            operands,
        };
        let outer = mem::replace(&mut self.current, inner);
        self.outer.push(outer)?;
        self.labels.push(label_of(block_kind, kind))?;
        self.number += 1;
        Ok(false)
    }

    // The first part of an `if` ends, and the second one begins.
    fn part(&mut self, alloc: Global) -> Result<bool, Stop>
        ensures { Steps result self.new (parting self.old) }
    {
        let height = self.current.operands.height;
        self.current.operands.end(self.current.result)?;
        self.current.block_kind = BlockKind::Else;
        self.current.operands = Operands {
            height,
            unreachable: false,
            known: Stack::new(alloc),
        };
        Ok(false)
    }

    // A block ends, or the body does.
    fn close(&mut self) -> Result<bool, Stop>
        ensures { Steps result self.new (closing self.old) }
    {
        let kind = self.current.result;
        self.current.operands.end(kind)?;
        if let Some(fault) = missing(self.current.block_kind, kind) {
            return Err(Stop::Fault(fault));
        }
        match self.outer.pop() {
            None => Ok(true),
            Some(mut outer) => {
                outer.operands.give_optional(kind)?;
                outer.operands.low()?;
                self.current = outer;
                let _ = self.labels.pop();
                Ok(false)
            }
        }
    }

    /// The number that a fault at the next instruction has.
    pub fn told_at(&self, instr: &Instr) -> usize
        ensures { result ≡ told_at instr.now self.now }
    {
        match instr {
            Instr::Else => self.current.number,
            Instr::End => {
                if self.outer.is_empty() {
                    self.number
                } else {
                    self.current.number
                }
            }
            _ => self.number,
        }
    }

    /// One instruction. Whether it was the last one.
    pub fn step(&mut self, alloc: Global, context: &Context, instr: &Instr) -> Result<bool, Stop>
        requires room { self.old.number < usize.MAX }
        requires low { stacked self.old.current.operands ≤ 1024 }
        ensures { Steps result self.new (step instr.now context.now self.old) }
    {
        match instr {
            Instr::Block(kind) => self.open(alloc, BlockKind::Block, *kind),
            Instr::Loop(kind) => self.open(alloc, BlockKind::Loop, *kind),
            Instr::If(kind) => {
                self.current.operands.take(ValueType::I32)?;
                self.open(alloc, BlockKind::If, *kind)
            }
            Instr::Else => self.part(alloc),
            Instr::End => self.close(),
            _ => {
                plain(&mut self.current.operands, &self.labels, context, instr)?;
                self.number += 1;
                Ok(false)
            }
        }
    }
}
