//! Vectors (section 5.1.3): a count, and that many items.

ghost use Rattle.std.specs.Prelude.{List, ℕ};
ghost use Rattle.wasm_code.specs.Reading.{Reading, Gives, many_at, vector_at, u32_at};
ghost use Rattle.wasm_code.specs.declared.scope.Scope.{Scope};

use crate::fault::Stop;
use crate::numbers::{read_count, read_u32};
use crate::scope::Scope;
use std::alloc::Global;
use wasm_types::Items;

/// What a vector is made of.
pub trait Field {
    type Item: Drop;

    ghost reading: { Self → Scope → List ℕ → Reading Self.Item };

    fn read<'a>(
        &self,
        alloc: Global,
        scope: Scope,
        bytes: &'a [u8],
    ) -> Result<(Self::Item, &'a [u8]), Stop>
        ensures { Gives (λ x. (x.0, x.1.now)) result (reading self.now scope bytes.now) };
}

// So many items. Each takes a byte or reading ends, so the bytes at hand bound the memory.
fn many<'a, F: Field>(
    field: &F,
    alloc: Global,
    scope: Scope,
    count: u32,
    bytes: &'a [u8],
) -> Result<(Items<F::Item>, &'a [u8]), Stop>
    ensures { Gives (λ x. (x.0, x.1.now)) result (many_at (F.reading field.now scope) count bytes.now) }
{
    let mut items = Vec::new(alloc);
    let mut rest = bytes;
    for _ in 0..count {
        let (item, after) = field.read(alloc, scope, rest)?;
        items.push(item)?;
        rest = after;
    }
    Ok((Items::of(items), rest))
}

/// A count of at most the limit, and that many items.
#[tactic(auto, unfolding(crate::specs::Reading::vector_at))]
pub fn read_vector<'a, F: Field>(
    field: &F,
    limit: u32,
    alloc: Global,
    scope: Scope,
    bytes: &'a [u8],
) -> Result<(Items<F::Item>, &'a [u8]), Stop>
    ensures { Gives (λ x. (x.0, x.1.now)) result (vector_at limit (F.reading field.now) scope bytes.now) }
{
    let (count, rest) = read_count(limit, scope, bytes)?;
    many(field, alloc, scope, count, rest)
}

/// An index.
#[derive(Drop)]
pub struct Index;

impl Field for Index {
    type Item = u32;

    ghost reading = { λ _. u32_at };

    fn read<'a>(
        &self,
        _alloc: Global,
        scope: Scope,
        bytes: &'a [u8],
    ) -> Result<(u32, &'a [u8]), Stop> {
        read_u32(scope, bytes)
    }
}

/// A vector of so many items at most, as an item itself.
#[derive(Drop)]
pub struct Vector<F> {
    pub limit: u32,
    pub field: F,
}

impl<F: Field> Field for Vector<F> {
    type Item = Items<F::Item>;

    ghost reading = { λ v. vector_at v.limit (F.reading v.field) };

    fn read<'a>(
        &self,
        alloc: Global,
        scope: Scope,
        bytes: &'a [u8],
    ) -> Result<(Items<F::Item>, &'a [u8]), Stop> {
        read_vector(&self.field, self.limit, alloc, scope, bytes)
    }
}
