//! Locals of the function that runs.

ghost use Rattle.std.specs.Prelude.{◌≡◌};
ghost use Rattle.wasm_flat.specs.Made.{Makes};
ghost use Rattle.wasm_flat.specs.Flat.{local_get, put_local, local_set, local_tee};

use crate::halt::Halt;
use crate::thread::Thread;
use wasm_types::Value;

impl<'a> Thread<'a> {
    pub fn local_get(&mut self, index: u32) -> Result<(), Halt>
        ensures made { Makes result self.new (local_get index self.old) }
        ensures world { self.new.desk.world ≡ self.old.desk.world }
    {
        let index = index as usize;
        let count = self.locals.len().saturating_sub(self.base);
        if index < count {
            let value = self.locals.get(self.base + index)?;
            self.desk.push(value)
        } else {
            Err(Halt::Stuck)
        }
    }

    fn put_local(&mut self, index: u32, value: Value) -> Result<(), Halt>
        ensures made { Makes result self.new (put_local index value self.old) }
        ensures world { self.new.desk.world ≡ self.old.desk.world }
    {
        let index = index as usize;
        let count = self.locals.len().saturating_sub(self.base);
        if index < count {
            self.locals.set(self.base + index, value)
        } else {
            Err(Halt::Stuck)
        }
    }

    pub fn local_set(&mut self, index: u32) -> Result<(), Halt>
        ensures made { Makes result self.new (local_set index self.old) }
        ensures world { self.new.desk.world ≡ self.old.desk.world }
    {
        let value = self.desk.pop()?;
        self.put_local(index, value)
    }

    pub fn local_tee(&mut self, index: u32) -> Result<(), Halt>
        ensures made { Makes result self.new (local_tee index self.old) }
        ensures world { self.new.desk.world ≡ self.old.desk.world }
    {
        match self.desk.get(0) {
            Some(value) => self.put_local(index, value),
            None => Err(Halt::Stuck),
        }
    }
}
