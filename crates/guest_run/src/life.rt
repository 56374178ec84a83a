//! How a guest's code goes on, up to its next outer call or its end.
ghost use Rattle.std.specs.Prelude.{◌≡◌, ℕ, List, Some, None, IfOk, slice_get};
ghost use Rattle.wasm_types.specs.declared.values.Value.TheVariants.{I32};
ghost use Rattle.module_machine.specs.Standing.{memory_of, with_memory};
ghost use Rattle.player.specs.Plays.{Program};
ghost use Rattle.guest_calls.specs.declared.call.Call.{Call};
ghost use Rattle.guest_calls.specs.declared.tables.GuestTables.{GuestTables};
ghost use Rattle.guest_run.specs.Next.{trap_number, memory_or};
ghost use Rattle.guest_run.specs.Lives.{IsNext, IsGoing, IsCalling, IsHearing, IsPaused, LivesOn, HasLeft, HasLess, IsAfterRow, listed};

use cache_types::{Outcome, OuterCall, OuterReply, TrapNumber};
use edge_abi::Step;
use guest_calls::{Call, GuestStep, GuestTables, RowCall, Under, goes_on, row, word};
use module_machine::{Machine, Stop};
use std::alloc::{AllocError, Global};
use wasm_memory::Memory;
use wasm_types::{TrapKind, Value};

/// What code has left that runs or waits.
#[derive(Clone, Copy)]
pub struct Left {
    pub fuel: u64,
    /// The function that begins where the code returns.
    pub follows: Option<u32>,
}

/// Where a program is to make a call.
#[derive(Drop)]
pub enum Pause {
    /// A row waits for the reply to its call.
    Waiting {
        left: Left,
        call: OuterCall,
        under: Under,
    },
    /// The program has ended; its End is next.
    Ending {
        outcome: Outcome,
    },
}

/// How far a program has come.
#[derive(Drop)]
pub enum Life {
    /// The code is to be run.
    Going { left: Left },
    Paused(Pause),
}

/// The place of a trap's kind in the list of kinds.
pub fn trap_number(kind: TrapKind) -> TrapNumber
    ensures { result ≡ trap_number kind }
{
    match kind {
        TrapKind::Unreachable => TrapNumber::Unreachable,
        TrapKind::DivideByZero => TrapNumber::DivideByZero,
        TrapKind::Overflow => TrapNumber::Overflow,
        TrapKind::OutOfBounds => TrapNumber::OutOfBounds,
        TrapKind::TableBounds => TrapNumber::TableBounds,
        TrapKind::NullElement => TrapNumber::NullElement,
        TrapKind::IndirectType => TrapNumber::IndirectType,
        TrapKind::StackFull => TrapNumber::StackFull,
        TrapKind::Segment => TrapNumber::Segment,
    }
}

fn ending(outcome: Outcome) -> Life
    ensures { result ≡ Life.Paused (Pause.Ending outcome) }
{
    Life::Paused(Pause::Ending { outcome })
}

/// Takes the memory out of the machine; where the module has none it is empty.
fn take_memory(alloc: Global, machine: &mut Machine) -> Result<Memory, AllocError>
    ensures memory { IfOk result (λ memory. memory ≡ memory_or (memory_of machine.old)) }
    ensures taken { machine.new ≡ with_memory None machine.old }
{
    match machine.take_memory() {
        Some(memory) => Ok(memory),
        None => Memory::new(alloc, 0, 0),
    }
}

/// Goes on behind a row.
fn after_row(machine: &mut Machine, left: Left, step: GuestStep) -> Life
    ensures { IsAfterRow step left machine.old result machine.new }
{
    match step {
        Step::Done(number) => {
            machine.resume(Some(Value::I32(number)));
            Life::Going { left }
        }
        Step::Outer(call, under) => Life::Paused(Pause::Waiting { left, call, under }),
    }
}

/// Starts the row of a call.
fn start_row(
    alloc: Global,
    machine: &mut Machine,
    tables: &mut GuestTables,
    left: Left,
    call: RowCall,
    arguments: &[Value],
) -> Result<Life, AllocError>
    ensures lives { (calls : List Call) (meaning : Program) (x : ℕ) → slice_get calls x ≡ Some (Call.Row call) → IsCalling calls meaning left x arguments.now machine.old tables.old → IfOk result (λ life. LivesOn calls meaning life machine.new tables.new) }
    ensures left { IfOk result (HasLeft left) }
{
    let mut memory = take_memory(alloc, machine)?;
    let step = row(alloc, call, arguments, tables, &mut memory)?;
    machine.put_memory(Some(memory));
    Ok(after_row(machine, left, step))
}

/// The call of an import.
fn call_at(calls: &[Call], import: u32) -> Option<Call>
    ensures { result ≡ slice_get calls.now import }
{
    match calls.get(import as usize) {
        Some(call) => Some(*call),
        None => None,
    }
}

/// Goes on behind a call.
fn call_on(
    alloc: Global,
    machine: &mut Machine,
    tables: &mut GuestTables,
    left: Left,
    call: Call,
    arguments: &[Value],
) -> Result<Life, AllocError>
    ensures lives { (calls : List Call) (meaning : Program) (x : ℕ) → slice_get calls x ≡ Some call → IsCalling calls meaning left x arguments.now machine.old tables.old → IfOk result (λ life. LivesOn calls meaning life machine.new tables.new) }
    ensures left { IfOk result (HasLeft left) }
{
    match call {
        Call::Row(call) => start_row(alloc, machine, tables, left, call, arguments),
        Call::Exit => Ok(ending(Outcome::Exited(word(arguments, 0)))),
    }
}

/// Goes on behind a call of an import.
fn called(
    alloc: Global,
    calls: &[Call],
    machine: &mut Machine,
    tables: &mut GuestTables,
    left: Left,
    import: u32,
    arguments: &[Value],
) -> Result<Life, AllocError>
    ensures lives { (meaning : Program) → IsCalling calls.now meaning left import arguments.now machine.old tables.old → IfOk result (λ life. LivesOn calls.now meaning life machine.new tables.new) }
    ensures left { IfOk result (HasLeft left) }
{
    match call_at(calls, import) {
        Some(call) => call_on(alloc, machine, tables, left, call, arguments),
        None => Ok(ending(Outcome::Trapped(TrapNumber::Unreachable))),
    }
}

/// Goes on where the code returned: the function that follows begins, with so much fuel, or the program has ended.
fn returned(machine: &mut Machine, left: Left, fuel: u64) -> Result<Life, AllocError>
    ensures lives { (calls : List Call) (meaning : Program) (t : GuestTables) → IsNext calls meaning fuel (listed left.follows) machine.old t → IfOk result (λ life. LivesOn calls meaning life machine.new t) }
    ensures less { IfOk result (HasLess left) }
{
    match left.follows {
        Some(function) => {
            machine.start(function)?;
            let left = Left {
                fuel,
                follows: None,
            };
            Ok(Life::Going { left })
        }
        None => Ok(ending(Outcome::Returned)),
    }
}

/// Runs the code to its next call of an import, and starts the row of this call; or to its return, and starts what follows.
fn run_once(
    alloc: Global,
    calls: &[Call],
    machine: &mut Machine,
    tables: &mut GuestTables,
    left: Left,
) -> Result<Life, AllocError>
    ensures lives { (meaning : Program) → IsGoing calls.now meaning left machine.old tables.old → IfOk result (λ life. LivesOn calls.now meaning life machine.new tables.new) }
    ensures less { IfOk result (HasLess left) }
{
    let (stop, rest) = machine.run(left.fuel);
    match stop {
        Stop::HostCall { import, arguments } => {
            // The call took a unit.
            if left.fuel <= rest {
                return Err(AllocError);
            }
            let left = Left {
                fuel: rest,
                follows: left.follows,
            };
            called(
                alloc,
                calls,
                machine,
                tables,
                left,
                import,
                arguments.items(),
            )
        }
        Stop::Returned => returned(machine, left, rest),
        Stop::Trapped(kind) => Ok(ending(Outcome::Trapped(trap_number(kind)))),
        Stop::OutOfFuel => Ok(ending(Outcome::OutOfFuel)),
        Stop::OutOfMemory => Err(AllocError),
    }
}

/// Runs the code until its program is to make an outer call.
pub fn live_on(
    alloc: Global,
    calls: &[Call],
    machine: &mut Machine,
    tables: &mut GuestTables,
    left: Left,
) -> Result<Pause, AllocError>
    ensures { (meaning : Program) → IsGoing calls.now meaning left machine.old tables.old → IfOk result (λ pause. IsPaused calls.now meaning pause machine.new tables.new) }
{
    let mut rest = left;
    loop {
        match run_once(alloc, calls, machine, tables, rest)? {
            Life::Going { left } => rest = left,
            Life::Paused(pause) => return Ok(pause),
        }
    }
}

/// Goes on with a row that heard its reply.
fn hear(
    alloc: Global,
    machine: &mut Machine,
    tables: &mut GuestTables,
    left: Left,
    under: Under,
    reply: &OuterReply,
) -> Result<Life, AllocError>
    ensures { (calls : List Call) (meaning : Program) → IsHearing calls meaning left under reply.now machine.old tables.old → IfOk result (λ life. LivesOn calls meaning life machine.new tables.new) }
{
    let mut memory = take_memory(alloc, machine)?;
    let step = goes_on(alloc, tables, &mut memory, under, reply)?;
    machine.put_memory(Some(memory));
    Ok(after_row(machine, left, step))
}

/// The same, and then with the code until its program is to make an outer call.
pub fn hear_on(
    alloc: Global,
    calls: &[Call],
    machine: &mut Machine,
    tables: &mut GuestTables,
    left: Left,
    under: Under,
    reply: &OuterReply,
) -> Result<Pause, AllocError>
    ensures { (meaning : Program) → IsHearing calls.now meaning left under reply.now machine.old tables.old → IfOk result (λ pause. IsPaused calls.now meaning pause machine.new tables.new) }
{
    match hear(alloc, machine, tables, left, under, reply)? {
        Life::Going { left } => live_on(alloc, calls, machine, tables, left),
        Life::Paused(pause) => Ok(pause),
    }
}
