//! Locals and globals.

ghost use Rattle.std.specs.Prelude.{◌≡◌, List, [], ◌∷◌, ◌++◌, length, take, replicate, slice_get, map, Ok, OnOk, OnErr};
ghost use Rattle.wasm_meaning.specs.Steps.{found};
ghost use Rattle.wasm_meaning.specs.Acts.{set_at};
ghost use Rattle.wasm_meaning.specs.Kinds.{zero_of};
ghost use Rattle.wasm_flat.specs.Made.{Makes, Gives};

use crate::halt::Halt;
use std::alloc::{AllocError, AllocFailed, Global};
use std::marker::Model;
use wasm_types::{Locals, Value, ValueType};

fn zero_of(kind: ValueType) -> Value
    ensures { result ≡ zero_of kind }
{
    match kind {
        ValueType::I32 => Value::I32(0),
        ValueType::I64 => Value::I64(0),
    }
}

/// Values that are read and written by their index. Contracts see the list of them.
#[derive(Drop)]
pub struct Cells {
    items: Vec<Value>,
}

impl Model for Cells {
    ghost use Rattle.std.specs.Prelude.{List};
    ghost use Rattle.wasm_types.specs.declared.values.Value.{Value as AValue};

    ghost Value = { List AValue };

    ghost view = { λ s. s.items.items };
}

impl Cells {
    pub fn new(alloc: Global) -> Cells
        ensures { result ≡ [] }
    {
        Cells {
            items: Vec::new(alloc),
        }
    }

    pub fn len(&self) -> usize
        ensures { result ≡ length self.now }
    {
        self.items.len()
    }

    pub fn get(&self, index: usize) -> Result<Value, Halt>
        ensures { Gives result (found (slice_get self.now index)) }
    {
        if index < self.items.len() {
            Ok(self.items[index])
        } else {
            Err(Halt::Stuck)
        }
    }

    pub fn set(&mut self, index: usize, value: Value) -> Result<(), Halt>
        ensures made { Makes result self.new (set_at index value self.old) }
        ensures kept { OnErr result (self.new ≡ self.old) }
    {
        if index < self.items.len() {
            self.items[index] = value;
            Ok(())
        } else {
            Err(Halt::Stuck)
        }
    }

    pub fn push(&mut self, value: Value) -> Result<(), AllocFailed<Value>>
        ensures { OnOk result (self.new ≡ self.old ++ value ∷ []) }
    {
        self.items.push(value)
    }

    pub fn extend(&mut self, values: &[Value]) -> Result<(), AllocError>
        ensures { OnOk result (self.new ≡ self.old ++ values.now) }
    {
        self.items.extend_from_slice(values)
    }

    // So many zeros of a type.
    fn extend_alike(&mut self, count: usize, kind: ValueType) -> Result<(), AllocFailed<Value>>
        ensures { OnOk result (self.new ≡ self.old ++ replicate count (zero_of kind)) }
    {
        for _ in 0..count {
            self.push(zero_of(kind))?;
        }
        Ok(())
    }

    /// Zeros of these types.
    pub fn extend_zeros(&mut self, kinds: &Locals) -> Result<(), Halt>
        ensures { Makes result self.new (Ok (self.old ++ map zero_of kinds.now)) }
    {
        let groups = kinds.groups();
        for group in groups {
            self.extend_alike(group.count, group.kind)?;
        }
        Ok(())
    }

    pub fn truncate(&mut self, len: usize)
        ensures { self.new ≡ take len self.old }
    {
        self.items.truncate(len);
    }
}
