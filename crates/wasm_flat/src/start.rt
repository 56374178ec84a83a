//! How a run begins.

ghost use Rattle.std.specs.Prelude.{◌≡◌, slice_get, Ok};
ghost use Rattle.wasm_flat.specs.Made.{Makes};
ghost use Rattle.wasm_flat.specs.Flat.{started};

use crate::cells::Cells;
use crate::desk::Desk;
use crate::halt::Halt;
use crate::thread::{Callee, Thread};
use stacks::Stack;
use std::alloc::Global;
use wasm_types::FuncType;

impl<'a> Thread<'a> {
    /// A thread that stands nowhere.
    pub fn idle(
        alloc: Global,
        callees: &'a [Callee<'a>],
        types: &'a [FuncType],
        table: &'a [Option<u32>],
        desk: Desk,
    ) -> Thread<'a>
        ensures functions { result.callees.now ≡ callees.now }
        ensures types { result.types.now ≡ types.now }
        ensures table { result.table.now ≡ table.now }
        ensures desk { result.desk ≡ desk }
    {
        Thread {
            alloc,
            callees,
            types,
            table,
            code: &[],
            exits: &[],
            function: 0,
            place: 0,
            floor: 0,
            base: 0,
            height: 0,
            keeps: false,
            desk,
            marks: Stack::new(alloc),
            locals: Cells::new(alloc),
            frames: Stack::new(alloc),
        }
    }

    /// Stands at the beginning of a function that takes nothing.
    pub fn begin(&mut self, function: u32) -> Result<(), Halt>
        ensures { Makes result self.new (started (slice_get self.old.callees.now function) function self.old) }
    {
        match self.callees.get(function as usize) {
            Some(callee) => {
                let callee = *callee;
                self.desk.clear();
                self.marks.clear();
                self.frames.clear();
                self.locals = Cells::new(self.alloc);
                self.locals.extend_zeros(callee.locals)?;
                self.code = callee.code;
                self.exits = callee.exits;
                self.function = function as usize;
                self.place = 0;
                self.floor = 0;
                self.base = 0;
                self.height = 0;
                self.keeps = callee.kind.result.is_some();
                Ok(())
            }
            None => Err(Halt::Stuck),
        }
    }
}
