//! The run: its guests and its steps.

ghost use Rattle.std.specs.Prelude.{◌≡◌, ◌<◌, IfOk};
ghost use Rattle.edge_load.specs.Load.{guest, step, upto, load_part, load_run};
ghost use Rattle.edge_load.specs.Playable.{IsPlayable};

use crate::lines::push_round;
use crate::words::word;
use cache_types::Items;
use run_files::Run;
use script_lines::{Blocks, Lines, Step, Steps};
use std::alloc::{AllocError, Global};

/// How many steps a load has.
const STEPS: u32 = 50_000;

/// The lines of the guest with this index, from 0.
fn guest(alloc: Global, number: u64, index: u32) -> Result<Lines, AllocError>
    ensures { IfOk result (λ lines. lines ≡ guest number index) }
{
    let index = u64::from(index);
    let byte = ((index + 1) % 256) as u8;
    let mut lines = Vec::new(alloc);
    for round in 0..4 {
        push_round(
            alloc,
            &mut lines,
            byte,
            5 * round + 1,
            word(number, 4 * index + round),
        )?;
    }
    Ok(Items::of(lines))
}

fn guests(alloc: Global, number: u64) -> Result<Blocks, AllocError>
    ensures { IfOk result (λ guests. guests ≡ upto (guest number) 500) }
{
    let mut guests = Vec::new(alloc);
    for index in 0..500 {
        guests.push(guest(alloc, number, index)?)?;
    }
    Ok(Items::of(guests))
}

/// The step with this index, from 0.
fn step(number: u64, index: u32) -> Step
    ensures { result ≡ step number index }
{
    let index = u64::from(index);
    Step {
        reading: 1000 * (index + 1),
        player: 1 + word(number, 2000 + index) % 500,
    }
}

fn steps(alloc: Global, number: u64, count: u32) -> Result<Steps, AllocError>
    ensures { IfOk result (λ steps. steps ≡ upto (step number) count) }
{
    let mut steps = Vec::new(alloc);
    for index in 0..count {
        steps.push(step(number, index))?;
    }
    Ok(Items::of(steps))
}

/// The beginning of a load by its number: 500 guests of four rounds, and the first so many steps.
pub fn load_part(alloc: Global, number: u64, count: u32) -> Result<Run, AllocError>
    ensures part { IfOk result (λ run. run ≡ load_part number count) }
    ensures playable { IfOk result IsPlayable }
{
    Ok(Run {
        guests: guests(alloc, number)?,
        steps: steps(alloc, number, count)?,
    })
}

/// The run of a load by its number: 500 guests of four rounds, and 50,000 steps.
pub fn load_run(alloc: Global, number: u64) -> Result<Run, AllocError>
    ensures run { IfOk result (λ run. run ≡ load_run number) }
    ensures playable { IfOk result IsPlayable }
{
    load_part(alloc, number, STEPS)
}
