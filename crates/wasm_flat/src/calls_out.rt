//! Calls of imports.

ghost use Rattle.std.specs.Prelude.{◌≡◌, ◌≤◌, is_some, length, slice_get, Ok};
ghost use Rattle.wasm_flat.specs.Made.{Makes, MakesOf};
ghost use Rattle.wasm_flat.specs.Flat.{awaiting, filled, suspended, taken_from};

use crate::halt::Halt;
use crate::thread::Thread;
use wasm_types::{Items, Value, Values};

impl<'a> Thread<'a> {
    // A place for the answer of an import, so that it needs no memory when it comes.
    fn await_one(&mut self, gives: bool) -> Result<(), Halt>
        ensures { Makes result self.new (Ok (awaiting gives self.old)) }
    {
        if gives {
            self.desk.push(Value::I32(0))
        } else {
            Ok(())
        }
    }

    fn arguments(&mut self, count: usize) -> Result<Values, Halt>
        requires { count ≤ length self.old.desk.operands }
        ensures { MakesOf result self.new (Ok (taken_from count self.old)) }
    {
        let mut values = Vec::new(self.alloc);
        values.extend_from_slice(self.desk.top(count))?;
        self.desk.lower(count);
        Ok(Items::of(values))
    }

    /// Takes the arguments of an import.
    pub fn suspend(&mut self, import: u32) -> Result<Values, Halt>
        ensures { MakesOf result self.new (suspended (slice_get self.old.callees.now import) self.old) }
    {
        match self.callees.get(import as usize) {
            Some(callee) => {
                let count = callee.kind.params.items().len();
                if self.desk.len() < count {
                    Err(Halt::Stuck)
                } else {
                    let gives = callee.kind.result.is_some();
                    let arguments = self.arguments(count)?;
                    self.await_one(gives)?;
                    Ok(arguments)
                }
            }
            None => Err(Halt::Stuck),
        }
    }

    /// Goes on behind the call of an import with what it answered.
    pub fn resume(&mut self, value: Option<Value>)
        ensures { self.new ≡ filled value self.old }
    {
        match value {
            Some(value) => self.desk.set_top(value),
            None => {}
        }
    }
}
