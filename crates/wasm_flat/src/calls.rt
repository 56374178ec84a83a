//! Calls and returns.

ghost use Rattle.std.specs.Prelude.{◌≡◌, ◌<◌, ◌≤◌, length, slice_get, Ok};
ghost use Rattle.wasm_meaning.specs.Kinds.{same_function_type};
ghost use Rattle.wasm_flat.specs.Made.{Makes, MakesOf};
ghost use Rattle.wasm_flat.specs.Flat.{left_to, leave, end, entered, call, of_type, through, call_indirect, waiting};

use crate::halt::{Halt, Next};
use crate::thread::{Callee, Frame, Thread};
use wasm_types::{FuncType, TrapKind, same_result, same_types};

fn same_function_type(one: &FuncType, other: &FuncType) -> bool
    ensures { result ≡ same_function_type one.now other.now }
{
    same_result(one.result, other.result) && same_types(one.params.items(), other.params.items())
}

impl<'a> Thread<'a> {
    fn leave_to(&mut self, frame: Frame) -> Result<(), Halt>
        ensures made { Makes result self.new (left_to frame self.old) }
        ensures world { self.new.desk.world ≡ self.old.desk.world }
    {
        match self.callees.get(frame.function) {
            Some(callee) => {
                self.locals.truncate(self.base);
                self.code = callee.code;
                self.exits = callee.exits;
                self.function = frame.function;
                self.place = frame.place;
                self.floor = frame.floor;
                self.base = frame.base;
                self.height = frame.height;
                self.keeps = frame.keeps;
                Ok(())
            }
            None => Err(Halt::Stuck),
        }
    }

    fn leave(&mut self) -> Result<Next, Halt>
        ensures made { MakesOf result self.new (leave self.old) }
        ensures world { self.new.desk.world ≡ self.old.desk.world }
    {
        match self.frames.pop() {
            Some(frame) => {
                self.leave_to(frame)?;
                Ok(Next::On)
            }
            None => Ok(Next::Over),
        }
    }

    /// The end of a block, or of a call.
    pub fn end(&mut self, behind: usize) -> Result<Next, Halt>
        ensures made { MakesOf result self.new (end behind self.old) }
        ensures world { self.new.desk.world ≡ self.old.desk.world }
    {
        if self.floor < self.marks.len() {
            self.place = behind;
            self.marks.lower(1);
            Ok(Next::On)
        } else {
            self.leave()
        }
    }

    fn waiting(&self) -> Frame
        ensures { result ≡ waiting self.now }
    {
        Frame {
            function: self.function,
            place: self.place,
            floor: self.floor,
            base: self.base,
            height: self.height,
            keeps: self.keeps,
        }
    }

    fn enter(&mut self, index: usize, callee: Callee<'a>) -> Result<(), Halt>
        requires { length callee.kind.now.params ≤ length self.old.desk.operands }
        ensures made { Makes result self.new (Ok (entered index callee.entry self.old)) }
        ensures world { self.new.desk.world ≡ self.old.desk.world }
    {
        let frame = self.waiting();
        self.frames.push(frame)?;
        let count = callee.kind.params.items().len();
        let base = self.locals.len();
        self.locals.extend(self.desk.top(count))?;
        self.locals.extend_zeros(callee.locals)?;
        self.desk.lower(count);
        self.code = callee.code;
        self.exits = callee.exits;
        self.function = index;
        self.place = 0;
        self.floor = self.marks.len();
        self.base = base;
        self.height = self.desk.len();
        self.keeps = callee.kind.result.is_some();
        Ok(())
    }

    pub fn call(&mut self, function: u32) -> Result<Next, Halt>
        ensures made { MakesOf result self.new (call function self.old) }
        ensures world { self.new.desk.world ≡ self.old.desk.world }
    {
        let index = function as usize;
        match self.callees.get(index) {
            Some(callee) => {
                let callee = *callee;
                if self.desk.len() < callee.kind.params.items().len() {
                    Err(Halt::Stuck)
                } else if callee.defined {
                    if self.frames.len() < 2047 {
                        self.enter(index, callee)?;
                        Ok(Next::On)
                    } else {
                        Err(Halt::Trap(TrapKind::StackFull))
                    }
                } else {
                    Ok(Next::Import(function))
                }
            }
            None => Err(Halt::Stuck),
        }
    }

    // A call through the table, of a function of this type.
    fn call_typed(&mut self, function: u32, kind: &FuncType) -> Result<Next, Halt>
        ensures made { MakesOf result self.new (of_type function kind.now (slice_get self.old.callees.now function) self.old) }
        ensures world { self.new.desk.world ≡ self.old.desk.world }
    {
        match self.callees.get(function as usize) {
            Some(callee) => {
                if same_function_type(callee.kind, kind) {
                    self.call(function)
                } else {
                    Err(Halt::Trap(TrapKind::IndirectType))
                }
            }
            None => Err(Halt::Stuck),
        }
    }

    fn call_through(&mut self, element: u32, kind: &FuncType) -> Result<Next, Halt>
        ensures made { MakesOf result self.new (through (slice_get self.old.table.now element) kind.now self.old) }
        ensures world { self.new.desk.world ≡ self.old.desk.world }
    {
        match self.table.get(element as usize) {
            Some(Some(function)) => self.call_typed(*function, kind),
            Some(None) => Err(Halt::Trap(TrapKind::NullElement)),
            None => Err(Halt::Trap(TrapKind::TableBounds)),
        }
    }

    pub fn call_indirect(&mut self, kind: u32) -> Result<Next, Halt>
        ensures made { MakesOf result self.new (call_indirect kind self.old) }
        ensures world { self.new.desk.world ≡ self.old.desk.world }
    {
        let element = self.desk.pop32()?;
        let types = self.types;
        match types.get(kind as usize) {
            Some(kind) => self.call_through(element, kind),
            None => Err(Halt::Stuck),
        }
    }
}
