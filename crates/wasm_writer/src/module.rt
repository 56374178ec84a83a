//! Modules (section 5.5.15).

ghost use Rattle.std.specs.Prelude.{◌≡◌, ◌++◌, IfOk};
ghost use Rattle.wasm_writer.specs.Spelled.{module_text};
ghost use Rattle.wasm_writer.specs.Shortest.{ReadsBack, IsShortest};

use crate::bodies::Bodies;
use crate::parts::{Elements, Exports, Globals, Imports, Segments};
use crate::sections::{write_list, write_start};
use crate::types::{FuncTypes, Memories, Tables};
use crate::vectors::Index;
use std::alloc::{AllocError, Global};
use wasm_types::Module;

// The magic number and the version.
const HEADER: [u8; 8] = [0x00, 0x61, 0x73, 0x6D, 0x01, 0x00, 0x00, 0x00];

// The header and the sections, in their order.
#[tactic(auto, unfolding(crate::specs::Spelled::module_text))]
fn write_whole(alloc: Global, module: &Module) -> Result<Vec<u8>, AllocError>
    ensures { IfOk result (λ bytes. bytes.items ≡ module_text «module».now) }
{
    let mut out = Vec::from_slice(alloc, &HEADER)?;
    write_list(alloc, &mut out, 1, FuncTypes, &module.types)?;
    write_list(alloc, &mut out, 2, Imports, &module.imports)?;
    write_list(alloc, &mut out, 3, Index, &module.functions)?;
    write_list(alloc, &mut out, 4, Tables, &module.tables)?;
    write_list(alloc, &mut out, 5, Memories, &module.memories)?;
    write_list(alloc, &mut out, 6, Globals, &module.globals)?;
    write_list(alloc, &mut out, 7, Exports, &module.exports)?;
    write_start(alloc, &mut out, module.start)?;
    write_list(alloc, &mut out, 9, Elements, &module.elements)?;
    write_list(alloc, &mut out, 10, Bodies { alloc }, &module.code)?;
    write_list(alloc, &mut out, 11, Segments, &module.segments)?;
    Ok(out)
}

/// Writes a module in the fewest bytes. Nothing is checked: of a module that no bytes have, as one with a name that isn't
/// UTF-8, something is written of which nothing is said.
pub fn write_module(alloc: Global, module: &Module) -> Result<Vec<u8>, AllocError>
    // Where any bytes have the module, these do.
    ensures reads { IfOk result (λ bytes. ReadsBack «module».now bytes.items) }

    // No bytes that have the module are fewer: each number has its shortest spelling, and no custom section stands.
    ensures shortest { IfOk result (λ bytes. IsShortest «module».now bytes.items) }
{
    write_whole(alloc, module)
}
