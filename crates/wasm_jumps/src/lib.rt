//! Where the blocks of flat code end.
//!
//! An expression is a flat list of instructions, in which `Else` and `End` are items. Code that enters a block has to know where
//! its end stands, and an `if` whose test fails has to know its `else`. The table of both is made once for a function's code, in
//! one pass from right to left; `specs/Exits.antt` says what it knows of nested code.
#![tactic(auto)]

ghost use Rattle.std.specs.Prelude.{◌≡◌, ◌<◌, ◌≤◌, ◌^◌, length, slice_get, Some, OnOk, IfOk, MatchOption};
ghost use Rattle.wasm_types.specs.Nested.{Body, Nests, role_of};
ghost use Rattle.wasm_jumps.specs.Exits.{KnowsExits, Knows, AllKnow};
ghost use Rattle.wasm_jumps.specs.Backwards.{exits_of, waiting_by, first_of};

use stacks::Stack;
use std::alloc::{AllocError, Global};
use std::marker::Model;
use wasm_types::{Code, Instr, Items};

fn first_of(ends: &Stack<u32>) -> u32
    ensures { result ≡ first_of ends.now }
{
    match ends.get(0) {
        Some(end) => end,
        None => 0,
    }
}

// What waits before an instruction.
fn pass(ends: &mut Stack<u32>, instr: &Instr, place: u32) -> Result<(), AllocError>
    ensures { OnOk result (ends.new ≡ waiting_by (role_of instr.now) place ends.old) }
{
    match instr {
        Instr::Block(_) | Instr::Loop(_) | Instr::If(_) => {
            let _ = ends.pop();
            Ok(())
        }
        Instr::Else => {
            let _ = ends.pop();
            ends.push(place)?;
            Ok(())
        }
        Instr::End => {
            ends.push(place)?;
            Ok(())
        }
        _ => Ok(()),
    }
}

fn read_backwards(alloc: Global, code: &[Instr]) -> Result<Vec<u32>, AllocError>
    requires { length code.now < 2 ^ 32 }
    ensures { IfOk result (λ v. v.items ≡ exits_of code.now 0) }
{
    let mut table = vec![in alloc; 0u32; code.len()]?;
    let mut ends = Stack::new(alloc);
    let mut left = code.len();
    while 0 < left {
        left -= 1;
        table[left] = first_of(&ends);
        pass(&mut ends, &code[left], left as u32)?;
    }
    Ok(table)
}

/// For each place of the code that of the end, or of the else, which closes what begins there.
pub fn exits_of(alloc: Global, code: &[Instr]) -> Result<Vec<u32>, AllocError>
    requires { length code.now < 2 ^ 32 }
    ensures { IfOk result (λ v. (body : Body) → Nests code.now body → KnowsExits code.now v.items) }
{
    match read_backwards(alloc, code) {
        Ok(table) => Ok(table),
        Err(error) => Err(error),
    }
}

/// The tables of the functions that a module defines, in their order. Contracts see a list for each.
#[derive(Drop)]
pub struct Jumps {
    tables: Vec<Items<u32>>,
}

impl Model for Jumps {
    ghost use Rattle.std.specs.Prelude.{List, ℕ};

    ghost Value = { List (List ℕ) };

    ghost view = { λ j. j.tables.items };
}

// A body is shorter than 2 to the power of 32, or there is no memory for its table.
fn table_of(alloc: Global, code: &Code) -> Result<Items<u32>, AllocError>
    ensures { IfOk result (λ t. Knows code.now t) }
{
    let body = code.body.items();
    if 0xffff_ffff < body.len() {
        return Err(AllocError);
    }
    match exits_of(alloc, body) {
        Ok(table) => Ok(Items::of(table)),
        Err(error) => Err(error),
    }
}

fn tables_of(alloc: Global, codes: &[Code]) -> Result<Vec<Items<u32>>, AllocError>
    ensures { IfOk result (λ v. AllKnow codes.now v.items) }
{
    let mut tables = Vec::new(alloc);
    for code in codes {
        let table = table_of(alloc, code)?;
        tables.push(table)?;
    }
    Ok(tables)
}

impl Jumps {
    pub fn new(alloc: Global, codes: &[Code]) -> Result<Jumps, AllocError>
        ensures { IfOk result (λ j. AllKnow codes.now j) }
    {
        Ok(Jumps {
            tables: tables_of(alloc, codes)?,
        })
    }

    /// The table of a function, by its place among those that the module defines.
    pub fn get(&self, index: usize) -> Option<&Items<u32>>
        ensures { MatchOption result (length self.now ≤ index) (λ t. slice_get self.now index ≡ Some t.now) }
    {
        self.tables.get(index)
    }
}
