//! A module starts.

ghost use Rattle.wasm_meaning.specs.Instance.{instance_of};
ghost use Rattle.wasm_flat.specs.Made.{Gives, Makes};
ghost use Rattle.wasm_instance.specs.Starting.{Starts, Begins, seen, blank_of, fits_in, placed_in, started};

use crate::constants::global_values;
use crate::memories::{empty_memory, place_segments, segments_fit};
use crate::tables::{elements_fit, empty_table, place_elements};
use std::alloc::Global;
use wasm_flat::{Cells, Halt};
use wasm_memory::Memory;
use wasm_types::{Module, TrapKind};

/// Globals, table and memory of a module that has started. An entry of the table names a function, or nothing.
#[derive(Drop)]
pub struct Begun {
    pub globals: Cells,
    pub table: Vec<Option<u32>>,
    pub memory: Option<Memory>,
}

/// Why a module didn't start: a segment ends past the end of the table or the memory.
#[derive(Clone, Copy, Debug, PartialEq, Eq)]
pub enum NewFault {
    Segment,
    OutOfMemory,
}

fn blank(alloc: Global, whole: &Module) -> Result<Begun, Halt>
    ensures { Begins result (blank_of whole.now) }
{
    let globals = global_values(alloc, whole.globals.items())?;
    let table = empty_table(alloc, whole.tables.items())?;
    let memory = empty_memory(alloc, whole.memories.items())?;
    Ok(Begun {
        globals,
        table,
        memory,
    })
}

fn fits(start: &Begun, whole: &Module) -> Result<bool, Halt>
    ensures { Gives result (fits_in whole.now (seen start.now)) }
{
    let elements = elements_fit(&start.globals, whole.elements.items(), start.table.len())?;
    let segments = segments_fit(&start.globals, whole.segments.items(), &start.memory)?;
    Ok(elements && segments)
}

fn place(alloc: Global, start: &mut Begun, whole: &Module) -> Result<(), Halt>
    ensures { Makes result (seen start.new) (placed_in whole.now (seen start.old)) }
{
    place_elements(
        alloc,
        &start.globals,
        whole.elements.items(),
        &mut start.table,
    )?;
    place_segments(&start.globals, whole.segments.items(), &mut start.memory)
}

fn begin(alloc: Global, whole: &Module) -> Result<Begun, Halt>
    ensures { Begins result (started whole.now) }
{
    let mut start = blank(alloc, whole)?;
    if fits(&start, whole)? {
        place(alloc, &mut start, whole)?;
        Ok(start)
    } else {
        Err(Halt::Trap(TrapKind::Segment))
    }
}

/// What the code of a module finds first.
#[tactic(auto, using(crate::proofs::Instances::starts_so))]
pub fn start(alloc: Global, whole: &Module) -> Result<Begun, NewFault>
    ensures { Starts result (instance_of whole.now) }
{
    match begin(alloc, whole) {
        Ok(start) => Ok(start),
        Err(Halt::Trap(TrapKind::Segment)) => Err(NewFault::Segment),
        Err(_) => Err(NewFault::OutOfMemory),
    }
}
