//! The memory, and the bytes that stand in it when the module starts.

ghost use Rattle.std.specs.Prelude.{◌≡◌, ◌≤◌, Ok};
ghost use Rattle.wasm_meaning.specs.Instance.{empty_memory, most_pages, size_of};
ghost use Rattle.wasm_flat.specs.Made.{Gives, Makes};
ghost use Rattle.wasm_instance.specs.Placing.{segment_fits, segments_fit, segment_placed, segments_placed};

use crate::constants::{both, offset_of};
use std::alloc::Global;
use wasm_flat::{Cells, Halt};
use wasm_memory::Memory;
use wasm_types::{Limits, Segment};

fn most_pages(most: Option<u32>) -> u32
    ensures pages { result ≡ most_pages most }
    ensures bound { result ≤ 2048 }
{
    match most {
        Some(most) => most.min(2048),
        None => 2048,
    }
}

/// No memory, or one of zeros with the pages that it begins with. Valid modules have no memory that begins with more pages
/// than it may have.
pub fn empty_memory(alloc: Global, memories: &[Limits]) -> Result<Option<Memory>, Halt>
    ensures { Gives result (Ok (empty_memory memories.now)) }
{
    match memories.split_first() {
        None => Ok(None),
        Some((limits, _)) => {
            let most = most_pages(limits.most);
            if limits.least <= most {
                Ok(Some(Memory::new(alloc, limits.least, most)?))
            } else {
                Err(Halt::Memory)
            }
        }
    }
}

fn fits(globals: &Cells, segment: &Segment, memory: &Option<Memory>) -> Result<bool, Halt>
    ensures { Gives result (segment_fits (size_of memory.now) globals.now segment.now) }
{
    let at = u64::from(offset_of(globals, segment.offset.items())?);
    let len = segment.bytes.items().len();
    match memory {
        Some(memory) => Ok(memory.is_inside(at, len as u64)),
        None => Ok(at == 0 && len == 0),
    }
}

/// Whether all segments end within the memory.
pub fn segments_fit(
    globals: &Cells,
    segments: &[Segment],
    memory: &Option<Memory>,
) -> Result<bool, Halt>
    ensures { Gives result (segments_fit (size_of memory.now) globals.now segments.now) }
{
    let mut fit = true;
    for segment in segments {
        match fits(globals, segment, memory) {
            Ok(one) => fit = both(one, fit),
            Err(halt) => return Err(halt),
        }
    }
    Ok(fit)
}

// One that doesn't fit isn't written.
fn place(globals: &Cells, segment: &Segment, memory: &mut Option<Memory>) -> Result<(), Halt>
    ensures { Makes result memory.new (segment_placed globals.now segment.now memory.old) }
{
    let at = offset_of(globals, segment.offset.items())?;
    match memory {
        Some(memory) => match memory.put(at, segment.bytes.items()) {
            Ok(()) => Ok(()),
            Err(_) => Err(Halt::Memory),
        },
        None => Ok(()),
    }
}

/// Writes the bytes of all segments, one segment after another.
pub fn place_segments(
    globals: &Cells,
    segments: &[Segment],
    memory: &mut Option<Memory>,
) -> Result<(), Halt>
    ensures { Makes result memory.new (segments_placed globals.now segments.now memory.old) }
{
    for segment in segments {
        match place(globals, segment, memory) {
            Ok(()) => {}
            Err(halt) => return Err(halt),
        }
    }
    Ok(())
}
