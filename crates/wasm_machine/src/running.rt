//! Runs of the machine.

ghost use Rattle.std.specs.Prelude.{◌≡◌, slice_get, Some, [], OnOk};
ghost use Rattle.wasm_types.specs.Nested.{Body};
ghost use Rattle.wasm_meaning.specs.Frames.{Program, Function, State};
ghost use Rattle.wasm_meaning.specs.Runs.{runs, first};
ghost use Rattle.wasm_flat.specs.Flat.{suspended, filled};
ghost use Rattle.wasm_machine.specs.Standing.{HasProgram, IsAt};
ghost use Rattle.wasm_machine.specs.Running.{IsStuck, Tells};
ghost use Rattle.wasm_machine.specs.Suspended.{stop_by, Suspends};

use wasm_flat::{Halt, Next, Thread};
use wasm_types::{TrapKind, Value, Values};

/// Why a run stopped.
#[derive(Drop)]
pub enum Stop {
    HostCall { import: u32, arguments: Values },
    Returned,
    Trapped(TrapKind),
    OutOfFuel,
    OutOfMemory,
}

fn stop_by(halt: Halt) -> Stop
    ensures { result ≡ stop_by halt }
{
    match halt {
        Halt::Stuck => Stop::OutOfMemory,
        Halt::Memory => Stop::OutOfMemory,
        Halt::Trap(kind) => Stop::Trapped(kind),
    }
}

// The stop at a call of an import.
fn call_out<'a>(thread: &mut Thread<'a>, import: u32) -> Stop
    ensures { Suspends import result thread.new (suspended (slice_get thread.old.callees.now import) thread.old) }
{
    match thread.suspend(import) {
        Ok(arguments) => Stop::HostCall { import, arguments },
        Err(halt) => stop_by(halt),
    }
}

/// Stands at the beginning of a function without parameters.
pub fn start<'a>(thread: &mut Thread<'a>, function: u32) -> Result<(), Halt>
    ensures { OnOk result ((program : Program) (f : Function) (body : Body) → HasProgram program thread.old → slice_get program.functions function ≡ Some f → f.kind.params ≡ [] → f.body ≡ Some body → IsAt program thread.new (first f body thread.old.desk.world)) }
{
    match thread.begin(function) {
        Ok(()) => Ok(()),
        Err(halt) => Err(halt),
    }
}

/// Goes on behind the call of an import with what it answered.
pub fn resume<'a>(thread: &mut Thread<'a>, value: Option<Value>)
    ensures { thread.new ≡ filled value thread.old }
{
    thread.resume(value);
}

/// Runs with so much fuel; what is left of it.
pub fn run<'a>(thread: &mut Thread<'a>, fuel: u64) -> (Stop, u64)
    ensures { (program : Program) (s : State) → IsAt program thread.old s → (IsStuck (runs fuel program s).ending → ⊥) → Tells program thread.new result.0 result.1 (runs fuel program s) }
{
    let mut left = fuel;
    for _ in 0..u64::MAX {
        match thread.advance(&mut left) {
            Ok(Next::On) => {}
            Ok(Next::Import(import)) => return (call_out(thread, import), left),
            Ok(Next::Over) => return (Stop::Returned, left),
            Ok(Next::Dry) => return (Stop::OutOfFuel, left),
            Err(halt) => return (stop_by(halt), left),
        }
    }
    (Stop::OutOfMemory, left)
}
