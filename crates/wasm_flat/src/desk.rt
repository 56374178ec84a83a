//! Instructions on numbers, operands, globals and memory.

ghost use Rattle.std.specs.Prelude.{◌≡◌, ◌*◌, ◌^◌, ◌<◌, ◌≤◌, [], length, drop, take, reverse, slice_get, Ok, IsTrue, IfOk};
ghost use Rattle.stacks.specs.Tops.{first_set};
ghost use Rattle.wasm_types.specs.declared.instructions.Instr.TheVariants as instrs;
ghost use Rattle.wasm_memory.specs.Bytes.{is_access};
ghost use Rattle.wasm_meaning.specs.Kinds.{same_kind};
ghost use Rattle.wasm_meaning.specs.Acts.{push, pop, pop32, pop64, converted, load, store, acts};
ghost use Rattle.wasm_flat.specs.Made.{Makes, MakesOf, Gives, KeepsWorld};
ghost use Rattle.wasm_flat.specs.Touched.{read_from, written_to, grown_by};

use crate::access::{load_size, loaded, store_size, stored};
use crate::cells::Cells;
use crate::halt::Halt;
use stacks::Stack;
use std::alloc::Global;
use std::marker::Model;
use wasm_memory::Memory;
use wasm_num::{
    convert, i32_binary, i32_compare, i32_test, i32_unary, i64_binary, i64_compare, i64_test,
    i64_unary,
};
use wasm_types::{
    Binary, Compare, Convert, Instr, LoadKind, StoreKind, Test, TrapKind, Unary, Value,
};

/// Operands, and what they are taken from and given to. Contracts see the topmost operand first.
#[derive(Drop)]
pub struct Desk {
    operands: Stack<Value>,
    globals: Cells,
    memory: Option<Memory>,
}

impl Model for Desk {
    ghost use Rattle.wasm_meaning.specs.World.{Desk as ADesk};

    ghost Value = { ADesk };

    ghost view = { λ d. record { operands = d.operands; world = record { globals = d.globals; memory = d.memory } } };
}

fn same_kind(first: Value, second: Value) -> bool
    ensures { result ≡ same_kind first second }
{
    match (first, second) {
        (Value::I32(_), Value::I32(_)) => true,
        (Value::I64(_), Value::I64(_)) => true,
        _ => false,
    }
}

impl Desk {
    pub fn new(alloc: Global, globals: Cells, memory: Option<Memory>) -> Desk
        ensures operands { result.operands ≡ [] }
        ensures globals { result.world.globals ≡ globals }
        ensures memory { result.world.memory ≡ memory }
    {
        Desk {
            operands: Stack::new(alloc),
            globals,
            memory,
        }
    }
}

impl Desk {
    /// Takes the memory out; there is none then.
    pub fn take_memory(&mut self) -> Option<Memory>
        ensures memory { result ≡ self.old.world.memory }
        ensures none { self.new ≡ record self.old { world = record self.old.world { memory = None } } }
    {
        self.memory.take()
    }

    /// Puts a memory in the place of the one that is there.
    pub fn put_memory(&mut self, memory: Option<Memory>)
        ensures { self.new ≡ record self.old { world = record self.old.world { memory = memory } } }
    {
        self.memory = memory;
    }

    pub fn len(&self) -> usize
        ensures { result ≡ length self.now.operands }
    {
        self.operands.len()
    }

    /// The operand so far below the topmost one.
    pub fn get(&self, depth: usize) -> Option<Value>
        ensures { result ≡ slice_get self.now.operands depth }
    {
        self.operands.get(depth)
    }

    /// So many operands, the topmost one last.
    pub fn top(&self, count: usize) -> &[Value]
        requires { count ≤ length self.now.operands }
        ensures { result.now ≡ reverse (take count self.now.operands) }
    {
        self.operands.top(count)
    }

    /// Drops so many operands.
    pub fn lower(&mut self, count: usize)
        ensures { self.new ≡ record self.old { operands = drop count self.old.operands } }
    {
        self.operands.lower(count);
    }

    /// Writes over the topmost operand.
    pub fn set_top(&mut self, value: Value)
        ensures { self.new ≡ record self.old { operands = first_set value self.old.operands } }
    {
        self.operands.set_top(value);
    }

    /// Drops all operands.
    pub fn clear(&mut self)
        ensures { self.new ≡ record self.old { operands = [] } }
    {
        self.operands.clear();
    }

    pub fn push(&mut self, value: Value) -> Result<(), Halt>
        ensures made { Makes result self.new (Ok (push value self.old)) }
        ensures world { self.new.world ≡ self.old.world }
    {
        self.operands.push(value)?;
        Ok(())
    }

    pub fn pop(&mut self) -> Result<Value, Halt>
        ensures made { MakesOf result self.new (pop self.old) }
        ensures world { self.new.world ≡ self.old.world }
    {
        match self.operands.pop() {
            Some(value) => Ok(value),
            None => Err(Halt::Stuck),
        }
    }

    pub fn pop32(&mut self) -> Result<u32, Halt>
        ensures made { MakesOf result self.new (pop32 self.old) }
        ensures world { self.new.world ≡ self.old.world }
    {
        match self.pop()? {
            Value::I32(n) => Ok(n),
            Value::I64(_) => Err(Halt::Stuck),
        }
    }

    fn pop64(&mut self) -> Result<u64, Halt>
        ensures made { MakesOf result self.new (pop64 self.old) }
        ensures world { self.new.world ≡ self.old.world }
    {
        match self.pop()? {
            Value::I64(n) => Ok(n),
            Value::I32(_) => Err(Halt::Stuck),
        }
    }
}

impl Desk {
    fn test32(&mut self, op: Test) -> Result<(), Halt>
        ensures made { Makes result self.new (acts (instrs.I32Test op) self.old) }
        ensures world { self.new.world ≡ self.old.world }
    {
        let a = self.pop32()?;
        self.push(Value::I32(i32_test(op, a)))
    }

    fn compare32(&mut self, op: Compare) -> Result<(), Halt>
        ensures made { Makes result self.new (acts (instrs.I32Compare op) self.old) }
        ensures world { self.new.world ≡ self.old.world }
    {
        let b = self.pop32()?;
        let a = self.pop32()?;
        self.push(Value::I32(i32_compare(op, a, b)))
    }

    fn unary32(&mut self, op: Unary) -> Result<(), Halt>
        ensures made { Makes result self.new (acts (instrs.I32Unary op) self.old) }
        ensures world { self.new.world ≡ self.old.world }
    {
        let a = self.pop32()?;
        self.push(Value::I32(i32_unary(op, a)))
    }

    fn binary32(&mut self, op: Binary) -> Result<(), Halt>
        ensures made { Makes result self.new (acts (instrs.I32Binary op) self.old) }
        ensures world { self.new.world ≡ self.old.world }
    {
        let b = self.pop32()?;
        let a = self.pop32()?;
        match i32_binary(op, a, b) {
            Ok(n) => self.push(Value::I32(n)),
            Err(kind) => Err(Halt::Trap(kind)),
        }
    }

    fn test64(&mut self, op: Test) -> Result<(), Halt>
        ensures made { Makes result self.new (acts (instrs.I64Test op) self.old) }
        ensures world { self.new.world ≡ self.old.world }
    {
        let a = self.pop64()?;
        self.push(Value::I32(i64_test(op, a)))
    }

    fn compare64(&mut self, op: Compare) -> Result<(), Halt>
        ensures made { Makes result self.new (acts (instrs.I64Compare op) self.old) }
        ensures world { self.new.world ≡ self.old.world }
    {
        let b = self.pop64()?;
        let a = self.pop64()?;
        self.push(Value::I32(i64_compare(op, a, b)))
    }

    fn unary64(&mut self, op: Unary) -> Result<(), Halt>
        ensures made { Makes result self.new (acts (instrs.I64Unary op) self.old) }
        ensures world { self.new.world ≡ self.old.world }
    {
        let a = self.pop64()?;
        self.push(Value::I64(i64_unary(op, a)))
    }

    fn binary64(&mut self, op: Binary) -> Result<(), Halt>
        ensures made { Makes result self.new (acts (instrs.I64Binary op) self.old) }
        ensures world { self.new.world ≡ self.old.world }
    {
        let b = self.pop64()?;
        let a = self.pop64()?;
        match i64_binary(op, a, b) {
            Ok(n) => self.push(Value::I64(n)),
            Err(kind) => Err(Halt::Trap(kind)),
        }
    }

    fn convert(&mut self, op: Convert) -> Result<(), Halt>
        ensures made { Makes result self.new (converted op self.old) }
        ensures world { self.new.world ≡ self.old.world }
    {
        match op {
            Convert::WrapI64 => {
                let a = self.pop64()?;
                self.push(Value::I32((a % 0x1_0000_0000) as u32))
            }
            Convert::ExtendI32S => {
                let a = self.pop32()?;
                self.push(Value::I64(convert(Convert::ExtendI32S, u64::from(a))))
            }
            Convert::ExtendI32U => {
                let a = self.pop32()?;
                self.push(Value::I64(u64::from(a)))
            }
        }
    }
}

impl Desk {
    fn read(&self, size: u32, place: u64) -> Result<u64, Halt>
        requires { IsTrue (is_access size) }
        ensures read { Gives result (read_from size place self.now.world.memory) }
        ensures bound { IfOk result (λ n. n < 2 ^ (8 * size)) }
    {
        match &self.memory {
            Some(memory) => match memory.load(place, size) {
                Ok(n) => Ok(n),
                Err(_) => Err(Halt::Trap(TrapKind::OutOfBounds)),
            },
            None => Err(Halt::Stuck),
        }
    }

    fn load(&mut self, kind: LoadKind, offset: u32) -> Result<(), Halt>
        ensures made { Makes result self.new (load kind offset self.old) }
        ensures world { self.new.world ≡ self.old.world }
    {
        let place = self.pop32()?;
        let n = self.read(load_size(kind), u64::from(place) + u64::from(offset))?;
        self.push(loaded(kind, n))
    }

    fn write(&mut self, size: u32, place: u64, n: u64) -> Result<(), Halt>
        requires { IsTrue (is_access size) }
        ensures made { Makes result self.new (written_to size place n self.old) }
        ensures kept { KeepsWorld result self.old.world self.new.world }
    {
        match &mut self.memory {
            Some(memory) => match memory.store(place, size, n) {
                Ok(()) => Ok(()),
                Err(_) => Err(Halt::Trap(TrapKind::OutOfBounds)),
            },
            None => Err(Halt::Stuck),
        }
    }

    fn store(&mut self, kind: StoreKind, offset: u32) -> Result<(), Halt>
        ensures made { Makes result self.new (store kind offset self.old) }
        ensures kept { KeepsWorld result self.old.world self.new.world }
    {
        let value = self.pop()?;
        let n = stored(kind, value)?;
        let place = self.pop32()?;
        self.write(store_size(kind), u64::from(place) + u64::from(offset), n)
    }

    fn size(&mut self) -> Result<(), Halt>
        ensures made { Makes result self.new (acts instrs.MemorySize self.old) }
        ensures world { self.new.world ≡ self.old.world }
    {
        match &self.memory {
            Some(memory) => {
                let pages = memory.pages();
                self.push(Value::I32(pages))
            }
            None => Err(Halt::Stuck),
        }
    }

    fn grow_by(&mut self, more: u32) -> Result<u32, Halt>
        ensures made { MakesOf result self.new (grown_by more self.old) }
        ensures kept { KeepsWorld result self.old.world self.new.world }
    {
        match &mut self.memory {
            Some(memory) => match memory.grow(more)? {
                Some(pages) => Ok(pages),
                None => Ok(0xffff_ffff),
            },
            None => Err(Halt::Stuck),
        }
    }

    fn grow(&mut self) -> Result<(), Halt>
        ensures made { Makes result self.new (acts instrs.MemoryGrow self.old) }
        ensures kept { KeepsWorld result self.old.world self.new.world }
    {
        let more = self.pop32()?;
        let answer = self.grow_by(more)?;
        self.push(Value::I32(answer))
    }
}

impl Desk {
    fn select(&mut self) -> Result<(), Halt>
        ensures made { Makes result self.new (acts instrs.Select self.old) }
        ensures world { self.new.world ≡ self.old.world }
    {
        let test = self.pop32()?;
        let second = self.pop()?;
        let first = self.pop()?;
        if same_kind(first, second) {
            self.push(if test == 0 { second } else { first })
        } else {
            Err(Halt::Stuck)
        }
    }

    fn global_get(&mut self, index: u32) -> Result<(), Halt>
        ensures made { Makes result self.new (acts (instrs.GlobalGet index) self.old) }
        ensures world { self.new.world ≡ self.old.world }
    {
        let value = self.globals.get(index as usize)?;
        self.push(value)
    }

    fn global_set(&mut self, index: u32) -> Result<(), Halt>
        ensures made { Makes result self.new (acts (instrs.GlobalSet index) self.old) }
        ensures kept { KeepsWorld result self.old.world self.new.world }
    {
        let value = self.pop()?;
        self.globals.set(index as usize, value)
    }

    fn drop_one(&mut self) -> Result<(), Halt>
        ensures made { Makes result self.new (acts instrs.Drop self.old) }
        ensures world { self.new.world ≡ self.old.world }
    {
        let _ = self.pop()?;
        Ok(())
    }

    /// An instruction that opens no block and calls nothing, and reads no local.
    pub fn act(&mut self, instr: &Instr) -> Result<(), Halt>
        ensures made { Makes result self.new (acts instr.now self.old) }
        ensures kept { KeepsWorld result self.old.world self.new.world }
    {
        match instr {
            Instr::Nop => Ok(()),
            Instr::Unreachable => Err(Halt::Trap(TrapKind::Unreachable)),
            Instr::Drop => self.drop_one(),
            Instr::Select => self.select(),
            Instr::GlobalGet(index) => self.global_get(*index),
            Instr::GlobalSet(index) => self.global_set(*index),
            Instr::Load { kind, offset, .. } => self.load(*kind, *offset),
            Instr::Store { kind, offset, .. } => self.store(*kind, *offset),
            Instr::MemorySize => self.size(),
            Instr::MemoryGrow => self.grow(),
            Instr::Const(value) => self.push(*value),
            Instr::I32Test(op) => self.test32(*op),
            Instr::I32Compare(op) => self.compare32(*op),
            Instr::I32Unary(op) => self.unary32(*op),
            Instr::I32Binary(op) => self.binary32(*op),
            Instr::I64Test(op) => self.test64(*op),
            Instr::I64Compare(op) => self.compare64(*op),
            Instr::I64Unary(op) => self.unary64(*op),
            Instr::I64Binary(op) => self.binary64(*op),
            Instr::Convert(op) => self.convert(*op),
            _ => Err(Halt::Stuck),
        }
    }
}
