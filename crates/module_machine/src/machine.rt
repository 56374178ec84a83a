//! One guest's run.

ghost use Rattle.std.specs.Prelude.{◌≡◌, ℕ, Some, None, [], slice_get, OnOk};
ghost use Rattle.wasm_types.specs.declared.modules.Module.{Module};
ghost use Rattle.wasm_types.specs.Nested.{Body};
ghost use Rattle.wasm_meaning.specs.World.{World};
ghost use Rattle.wasm_meaning.specs.Frames.{Program, Function, State};
ghost use Rattle.wasm_meaning.specs.Runs.{runs, first, resumed};
ghost use Rattle.wasm_sound.specs.Typed.{IsStuck};
ghost use Rattle.module_machine.specs.Shared.{IsImage};
ghost use Rattle.module_machine.specs.Standing.{Starts, IsIdle, Stands, Waits, FitsImport, Tells, memory_of, with_memory, thread_of};

use crate::image::Image;
use std::alloc::{AllocError, Global};
use wasm_flat::{Desk, Thread};
use wasm_instance::NewFault;
use wasm_machine::Stop;
use wasm_memory::Memory;
use wasm_types::Value;

/// A guest: where it stands in its code, its globals and its memory.
#[derive(Drop)]
pub struct Machine<'a> {
    pub(crate) image: &'a Image<'a>,
    pub(crate) thread: Thread<'a>,
    // It is in the thread while code runs.
    pub(crate) memory: Option<Memory>,
}

impl<'a> Machine<'a> {
    /// A machine that is idle, with the globals and the memory that the module begins with.
    pub fn new<'b>(alloc: Global, image: &'a Image<'b>) -> Result<Machine<'a>, NewFault>
        ensures { (m : Module) → IsImage m image.now → Starts m result }
    {
        match wasm_instance::start(alloc, image.whole) {
            Ok(begun) => {
                let desk = Desk::new(alloc, begun.globals, None);
                let callees = image.callees.as_slice();
                let thread = Thread::idle(alloc, callees, image.types, image.table, desk);
                Ok(Machine {
                    image,
                    thread,
                    memory: begun.memory,
                })
            }
            Err(fault) => Err(fault),
        }
    }

    // Has the functions, types and table of the module.
    fn ready(&mut self)
        ensures image { self.new.image ≡ self.old.image }
        ensures functions { self.new.thread.callees.now ≡ self.old.image.now.callees.items }
        ensures types { self.new.thread.types.now ≡ self.old.image.now.types.now }
        ensures table { self.new.thread.table.now ≡ self.old.image.now.table.now }
        ensures desk { self.new.thread.desk ≡ self.old.thread.desk }
    {
        self.thread.callees = self.image.callees.as_slice();
        self.thread.types = self.image.types;
        self.thread.table = self.image.table;
    }

    // The thread has the memory.
    fn enter(&mut self)
        ensures image { self.new.image ≡ self.old.image }
        ensures thread { self.new.thread ≡ thread_of self.old }
    {
        let memory = self.memory.take();
        self.thread.desk.put_memory(memory);
    }

    // The machine has it again.
    fn leave(&mut self)
        ensures image { self.new.image ≡ self.old.image }
        ensures thread { thread_of self.new ≡ self.old.thread }
    {
        self.memory = self.thread.desk.take_memory();
    }

    /// Stands at the beginning of a function that is defined and takes nothing.
    pub fn start(&mut self, function: u32) -> Result<(), AllocError>
        ensures stands { OnOk result ((p : Program) (w : World) (f : Function) (body : Body) → IsIdle p w self.old → slice_get p.functions function ≡ Some f → f.kind.params ≡ [] → f.body ≡ Some body → Stands p (first f body w) self.new) }
        ensures never_stuck { (p : Program) (w : World) (f : Function) (body : Body) → IsIdle p w self.old → slice_get p.functions function ≡ Some f → f.kind.params ≡ [] → f.body ≡ Some body → (n : ℕ) → IsStuck (runs n p (first f body w)).ending → ⊥ }
    {
        self.enter();
        self.ready();
        let begun = wasm_machine::start(&mut self.thread, function);
        self.leave();
        match begun {
            Ok(()) => Ok(()),
            Err(_) => Err(AllocError),
        }
    }

    /// Executes instructions, one unit of fuel each, until the function has returned, code traps, an import is called or the fuel
    /// is spent. The answer is why it stopped, and the fuel that is left.
    pub fn run(&mut self, fuel: u64) -> (Stop, u64)
        ensures { (p : Program) (s : State) → Stands p s self.old → Tells p self.new result.0 result.1 (runs fuel p s) }
    {
        self.enter();
        let told = wasm_machine::run(&mut self.thread, fuel);
        self.leave();
        told
    }

    /// Goes on behind the call of an import with what it answered. It takes no memory.
    pub fn resume(&mut self, value: Option<Value>)
        ensures { (p : Program) (x : ℕ) (s : State) → Waits p x s self.old → FitsImport (slice_get p.functions x) value → Stands p (resumed value s) self.new }
    {
        wasm_machine::resume(&mut self.thread, value);
    }

    /// Takes the memory out, for the host to read and to write between a call of an import and its answer. `put_memory` has to
    /// put it back before that.
    pub fn take_memory(&mut self) -> Option<Memory>
        ensures memory { result ≡ memory_of self.old }
        ensures none { self.new ≡ with_memory None self.old }
    {
        self.memory.take()
    }

    /// Puts a memory in, as the host made it.
    pub fn put_memory(&mut self, memory: Option<Memory>)
        ensures { self.new ≡ with_memory memory self.old }
    {
        self.memory = memory;
    }
}
