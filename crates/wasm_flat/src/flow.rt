//! Instructions that choose what is executed next.

ghost use Rattle.std.specs.Prelude.{◌≡◌, ◌+◌, ◌^◌, ◌<◌, length, slice_get, is_some, true, false, Ok};
ghost use Rattle.wasm_flat.specs.Made.{Makes, Gives};
ghost use Rattle.wasm_flat.specs.Flat.{exit_at, end_from, is_else, opened, block, if_block, parted_at, give_back, branch, branch_if, branch_table, cut_in, to_mark};
ghost use Rattle.stacks.specs.Tops.{head_of};

use crate::halt::Halt;
use crate::thread::{Mark, Thread};
use wasm_types::{Instr, ValueType};

impl<'a> Thread<'a> {
    fn open(&mut self, looping: bool, target: usize, keeps: bool) -> Result<(), Halt>
        ensures made { Makes result self.new (Ok (opened looping target keeps self.old)) }
        ensures world { self.new.desk.world ≡ self.old.desk.world }
    {
        let height = self.desk.len();
        self.marks.push(Mark {
            looping,
            target,
            height,
            keeps,
        })?;
        Ok(())
    }

    fn exit_at(&self, here: usize) -> Result<usize, Halt>
        ensures { Gives result (exit_at here self.now) }
    {
        match self.exits.get(here) {
            Some(exit) => Ok(*exit as usize),
            None => Err(Halt::Stuck),
        }
    }

    pub fn block(&mut self, gives: Option<ValueType>, here: usize) -> Result<(), Halt>
        ensures made { Makes result self.new (block gives here self.old) }
        ensures world { self.new.desk.world ≡ self.old.desk.world }
    {
        let exit = self.exit_at(here)?;
        self.open(false, exit, gives.is_some())
    }

    // Whether an else stands there.
    fn parts_at(&self, place: usize) -> bool
        ensures { result ≡ is_else (slice_get self.now.code.now place) }
    {
        match self.code.get(place) {
            Some(Instr::Else) => true,
            _ => false,
        }
    }

    fn end_from(&self, parts: bool, exit: usize) -> Result<usize, Halt>
        ensures { Gives result (end_from parts exit self.now) }
    {
        if parts { self.exit_at(exit) } else { Ok(exit) }
    }

    pub fn if_block(&mut self, gives: Option<ValueType>, here: usize) -> Result<(), Halt>
        ensures made { Makes result self.new (if_block gives here self.old) }
        ensures world { self.new.desk.world ≡ self.old.desk.world }
    {
        let exit = self.exit_at(here)?;
        let parts = self.parts_at(exit);
        let end = self.end_from(parts, exit)?;
        let test = self.desk.pop32()?;
        self.open(false, end, gives.is_some())?;
        if test == 0 {
            self.place = if parts && exit < self.code.len() {
                exit + 1
            } else {
                exit
            };
        }
        Ok(())
    }

    pub fn begin_loop(&mut self, here: usize) -> Result<(), Halt>
        ensures made { Makes result self.new (Ok (opened true here false self.old)) }
        ensures world { self.new.desk.world ≡ self.old.desk.world }
    {
        self.open(true, here, false)
    }

    // Leaves so many operands, and one on top of them where it is kept.
    fn cut(&mut self, keeps: bool, height: usize) -> Result<(), Halt>
        ensures made { Makes result self.new (cut_in keeps height self.old) }
        ensures world { self.new.desk.world ≡ self.old.desk.world }
    {
        if keeps {
            let top = self.desk.pop()?;
            let extra = self.desk.len().saturating_sub(height);
            self.desk.lower(extra);
            self.desk.push(top)
        } else {
            let extra = self.desk.len().saturating_sub(height);
            self.desk.lower(extra);
            Ok(())
        }
    }

    fn to_mark(&mut self, label: usize, mark: Mark) -> Result<(), Halt>
        requires { label + 1 < 2 ^ 64 }
        ensures made { Makes result self.new (to_mark label mark self.old) }
        ensures world { self.new.desk.world ≡ self.old.desk.world }
    {
        self.cut(mark.keeps, mark.height)?;
        self.place = mark.target;
        let gone = if mark.looping { label + 1 } else { label };
        self.marks.lower(gone);
        Ok(())
    }

    pub fn give_back(&mut self) -> Result<(), Halt>
        ensures made { Makes result self.new (give_back self.old) }
        ensures world { self.new.desk.world ≡ self.old.desk.world }
    {
        self.cut(self.keeps, self.height)?;
        let own = self.marks.len().saturating_sub(self.floor);
        self.marks.lower(own);
        self.place = self.code.len().saturating_sub(1);
        Ok(())
    }

    pub fn branch(&mut self, label: u32) -> Result<(), Halt>
        ensures made { Makes result self.new (branch label self.old) }
        ensures world { self.new.desk.world ≡ self.old.desk.world }
    {
        let label = label as usize;
        let own = self.marks.len().saturating_sub(self.floor);
        if label < own {
            match self.marks.get(label) {
                Some(mark) => self.to_mark(label, mark),
                None => Err(Halt::Stuck),
            }
        } else if label == own {
            self.give_back()
        } else {
            Err(Halt::Stuck)
        }
    }

    pub fn branch_if(&mut self, label: u32) -> Result<(), Halt>
        ensures made { Makes result self.new (branch_if label self.old) }
        ensures world { self.new.desk.world ≡ self.old.desk.world }
    {
        let test = self.desk.pop32()?;
        if test == 0 {
            Ok(())
        } else {
            self.branch(label)
        }
    }

    pub fn branch_table(&mut self, labels: &[u32], other: u32) -> Result<(), Halt>
        ensures made { Makes result self.new (branch_table labels.now other self.old) }
        ensures world { self.new.desk.world ≡ self.old.desk.world }
    {
        let test = self.desk.pop32()?;
        let label = match labels.get(test as usize) {
            Some(label) => *label,
            None => other,
        };
        self.branch(label)
    }

    /// The else behind the part of an if that was executed.
    pub fn part(&mut self) -> Result<(), Halt>
        ensures made { Makes result self.new (parted_at (head_of self.old.marks) self.old) }
        ensures world { self.new.desk.world ≡ self.old.desk.world }
    {
        match self.marks.pop() {
            Some(mark) => {
                if mark.target < self.code.len() {
                    self.place = mark.target + 1;
                    Ok(())
                } else {
                    Err(Halt::Stuck)
                }
            }
            None => Err(Halt::Stuck),
        }
    }
}
