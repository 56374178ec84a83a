//! Vectors (section 5.1.3): a count, and that many items.

ghost use Rattle.std.specs.Prelude.{◌≡◌, ◌++◌, IfOk, List, ℕ};
ghost use Rattle.std.specs.List.{flat_map};
ghost use Rattle.wasm_writer.specs.Numbers.{number_text};
ghost use Rattle.wasm_writer.specs.Spelled.{vector_text, bytes_text};

use crate::numbers::write_number;
use std::alloc::AllocError;
use wasm_types::Items;

/// What a vector is made of.
pub(crate) trait Spelling {
    type Item;

    ghost text: { Self → Self.Item → List ℕ };

    fn write(&self, out: &mut Vec<u8>, item: &Self::Item) -> Result<(), AllocError>
        ensures { IfOk result (λ _. out.new.items ≡ out.old.items ++ text self.now item.now) };
}

/// The items, one after another.
pub(crate) fn write_all<F: Spelling>(
    out: &mut Vec<u8>,
    field: &F,
    items: &[F::Item],
) -> Result<(), AllocError>
    ensures { IfOk result (λ _. out.new.items ≡ out.old.items ++ flat_map (F.text field.now) items.now) }
{
    for item in items {
        field.write(out, item)?;
    }
    Ok(())
}

/// A vector of items.
#[tactic(auto, unfolding(crate::specs::Spelled::vector_text))]
pub(crate) fn write_vector<F: Spelling>(
    out: &mut Vec<u8>,
    field: &F,
    items: &[F::Item],
) -> Result<(), AllocError>
    ensures { IfOk result (λ _. out.new.items ≡ out.old.items ++ vector_text (F.text field.now) items.now) }
{
    write_number(out, items.len() as u64)?;
    write_all(out, field, items)
}

/// A vector of bytes, as a name.
#[tactic(auto, unfolding(crate::specs::Spelled::bytes_text))]
pub(crate) fn write_bytes(out: &mut Vec<u8>, bytes: &[u8]) -> Result<(), AllocError>
    ensures { IfOk result (λ _. out.new.items ≡ out.old.items ++ bytes_text bytes.now) }
{
    write_number(out, bytes.len() as u64)?;
    out.extend_from_slice(bytes)
}

/// An index.
#[derive(Drop)]
pub(crate) struct Index;

impl Spelling for Index {
    type Item = u32;

    ghost text = { λ _. number_text };

    fn write(&self, out: &mut Vec<u8>, item: &u32) -> Result<(), AllocError> {
        write_number(out, u64::from(*item))
    }
}

/// A vector, as an item itself.
#[derive(Drop)]
pub(crate) struct Vector<F> {
    pub field: F,
}

impl<F: Spelling> Spelling for Vector<F> {
    type Item = Items<F::Item>;

    ghost text = { λ v. vector_text (F.text v.field) };

    fn write(&self, out: &mut Vec<u8>, items: &Items<F::Item>) -> Result<(), AllocError> {
        write_vector(out, &self.field, items.items())
    }
}
