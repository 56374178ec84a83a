//! One instruction.

ghost use Rattle.std.specs.Prelude.{◌≡◌};
ghost use Rattle.wasm_flat.specs.Made.{Makes, MakesOf, KeepsWorld};
ghost use Rattle.wasm_flat.specs.Flat.{step, goes, item_of, advanced, spent};

use crate::halt::{Halt, Next};
use crate::thread::Thread;
use wasm_types::Instr;

/// What stands at a place.
#[derive(Clone, Copy)]
pub enum Item {
    Ends,
    Parts,
    Goes,
}

fn item_of(instr: &Instr) -> Item
    ensures { result ≡ item_of instr.now }
{
    match instr {
        Instr::End => Item::Ends,
        Instr::Else => Item::Parts,
        _ => Item::Goes,
    }
}

impl<'a> Thread<'a> {
    /// Executes the instruction that stands here. The thread's place is already the one behind it.
    pub fn step(&mut self, instr: &Instr, here: usize) -> Result<(), Halt>
        ensures made { Makes result self.new (step instr.now here self.old) }
        ensures kept { KeepsWorld result self.old.desk.world self.new.desk.world }
    {
        match instr {
            Instr::Block(gives) => self.block(*gives, here),
            Instr::Loop(_) => self.begin_loop(here),
            Instr::If(gives) => self.if_block(*gives, here),
            Instr::Br(label) => self.branch(*label),
            Instr::BrIf(label) => self.branch_if(*label),
            Instr::Return => self.give_back(),
            Instr::BrTable { labels, other } => self.branch_table(labels.items(), *other),
            Instr::LocalGet(index) => self.local_get(*index),
            Instr::LocalSet(index) => self.local_set(*index),
            Instr::LocalTee(index) => self.local_tee(*index),
            _ => self.desk.act(instr),
        }
    }

    /// Executes any instruction. The thread's place is already the one behind it.
    pub fn go(&mut self, instr: &Instr, here: usize) -> Result<Next, Halt>
        ensures made { MakesOf result self.new (goes instr.now here self.old) }
        ensures kept { KeepsWorld result self.old.desk.world self.new.desk.world }
    {
        match instr {
            Instr::Call(function) => self.call(*function),
            Instr::CallIndirect(kind) => self.call_indirect(*kind),
            _ => {
                self.step(instr, here)?;
                Ok(Next::On)
            }
        }
    }

    /// What stands at the thread's place: an instruction takes a unit, the end of a block takes none.
    pub fn advance(&mut self, left: &mut u64) -> Result<Next, Halt>
        ensures made { MakesOf result self.new (advanced left.old self.old) }
        ensures spent { left.new ≡ spent left.old self.old }
        ensures kept { KeepsWorld result self.old.desk.world self.new.desk.world }
    {
        let code = self.code;
        let here = self.place;
        match code.get(here) {
            None => Err(Halt::Stuck),
            Some(instr) => match item_of(instr) {
                Item::Ends => self.end(here + 1),
                Item::Parts => {
                    self.part()?;
                    Ok(Next::On)
                }
                Item::Goes => {
                    if *left == 0 {
                        return Ok(Next::Dry);
                    }
                    *left -= 1;
                    self.place = here + 1;
                    self.go(instr, here)
                }
            },
        }
    }
}
