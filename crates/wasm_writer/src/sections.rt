//! Sections (section 5.5.2): what has its number of bytes in front.

ghost use Rattle.std.specs.Prelude.{◌≡◌, ◌++◌, IfOk};
ghost use Rattle.wasm_writer.specs.Spelled.{bytes_text, section_text, list_text, start_text};

use crate::vectors::{Index, Spelling, Vector, write_bytes};
use std::alloc::{AllocError, Global};
use wasm_types::Items;

/// What something is written as, behind the number of its bytes.
pub(crate) fn write_sized<F: Spelling>(
    alloc: Global,
    out: &mut Vec<u8>,
    field: &F,
    item: &F::Item,
) -> Result<(), AllocError>
    ensures { IfOk result (λ _. out.new.items ≡ out.old.items ++ bytes_text (F.text field.now item.now)) }
{
    let mut inside = Vec::new(alloc);
    field.write(&mut inside, item)?;
    write_bytes(out, inside.as_slice())
}

// A section with this number.
#[tactic(auto, unfolding(crate::specs::Spelled::section_text))]
fn write_section<F: Spelling>(
    alloc: Global,
    out: &mut Vec<u8>,
    id: u8,
    field: &F,
    item: &F::Item,
) -> Result<(), AllocError>
    ensures { IfOk result (λ _. out.new.items ≡ out.old.items ++ section_text id (F.text field.now item.now)) }
{
    out.push(id)?;
    write_sized(alloc, out, field, item)
}

/// A section with a vector; none where there are no items.
#[tactic(auto, unfolding(crate::specs::Spelled::list_text))]
pub(crate) fn write_list<F: Spelling + Drop>(
    alloc: Global,
    out: &mut Vec<u8>,
    id: u8,
    field: F,
    items: &Items<F::Item>,
) -> Result<(), AllocError>
    ensures { IfOk result (λ _. out.new.items ≡ out.old.items ++ list_text id (F.text field) items.now) }
{
    match items.items() {
        [] => Ok(()),
        [_, ..] => write_section(alloc, out, id, &Vector { field }, items),
    }
}

/// The start section (section 5.5.11), if there is a start function.
#[tactic(auto, unfolding(crate::specs::Spelled::start_text))]
pub(crate) fn write_start(
    alloc: Global,
    out: &mut Vec<u8>,
    start: Option<u32>,
) -> Result<(), AllocError>
    ensures { IfOk result (λ _. out.new.items ≡ out.old.items ++ start_text start) }
{
    match start {
        None => Ok(()),
        Some(function) => write_section(alloc, out, 8, &Index, &function),
    }
}
