//! The locals of a function (section 2.5.3), kept by groups of one type, as a module's bytes have them (section 5.5.13):
//! a group of 4,096 takes the room of one.

ghost use Rattle.std.specs.Prelude.{◌≡◌, ◌+◌, ◌<◌, ◌≤◌, ◌++◌, ◌∷◌, List, [], IfOk, OnOk, length, replicate};
ghost use Rattle.wasm_types.specs.declared.types.ValueType.{ValueType};
ghost use Rattle.wasm_types.specs.Locals.{locals_of, groups_of, AreFewest};

use crate::types::{ValueType, same_type};
use std::alloc::{AllocError, Global};
use std::marker::Model;

/// Locals of one type that stand one behind the other.
#[derive(Clone, Copy, Debug, PartialEq, Eq)]
pub struct Group {
    pub count: usize,
    pub kind: ValueType,
}

/// The locals of a function. Contracts see the list of their types, one by one.
#[derive(Debug, Drop)]
pub struct Locals {
    groups: Vec<Group>,
}

impl Model for Locals {
    ghost Value = { List ValueType };

    ghost view = { λ l. locals_of l.groups.items };

    ghost invariant = { λ l. AreFewest l.groups.items };
}

fn with_group(mut groups: Vec<Group>, group: Group) -> Result<Vec<Group>, AllocError>
    ensures { IfOk result (λ v. v.items ≡ groups.items ++ group ∷ []) }
{
    groups.push(group)?;
    Ok(groups)
}

// So many more locals of a type behind those of these groups, of which the last one is apart.
fn joined(
    groups: Vec<Group>,
    last: Group,
    count: usize,
    kind: ValueType,
) -> Result<Vec<Group>, AllocError>
    requires some { 0 < count }
    requires room { length (locals_of (groups.items ++ last ∷ [])) + count ≤ usize.MAX }
    requires fewest { AreFewest (groups.items ++ last ∷ []) }
    ensures locals { IfOk result (λ v. locals_of v.items ≡ locals_of (groups.items ++ last ∷ []) ++ replicate count kind) }
    ensures fewest { IfOk result (λ v. AreFewest v.items) }
{
    if same_type(last.kind, kind) {
        let count = last.count + count;
        return with_group(groups, Group { count, kind });
    }
    let groups = with_group(groups, last)?;
    with_group(groups, Group { count, kind })
}

fn extended(mut groups: Vec<Group>, count: usize, kind: ValueType) -> Result<Vec<Group>, AllocError>
    requires room { length (locals_of groups.items) + count ≤ usize.MAX }
    requires fewest { AreFewest groups.items }
    ensures locals { IfOk result (λ v. locals_of v.items ≡ locals_of groups.items ++ replicate count kind) }
    ensures fewest { IfOk result (λ v. AreFewest v.items) }
{
    if count == 0 {
        return Ok(groups);
    }
    match groups.pop() {
        None => with_group(groups, Group { count, kind }),
        Some(last) => joined(groups, last, count, kind),
    }
}

// So many more of a type.
fn add(kinds: &mut Vec<ValueType>, count: usize, kind: ValueType) -> Result<(), AllocError>
    ensures { OnOk result (kinds.new.items ≡ kinds.old.items ++ replicate count kind) }
{
    for _ in 0..count {
        kinds.push(kind)?;
    }
    Ok(())
}

impl Locals {
    /// No locals.
    pub fn new(alloc: Global) -> Locals
        ensures { result ≡ [] }
    {
        Locals {
            groups: Vec::new(alloc),
        }
    }

    /// Locals of these types.
    pub fn of(alloc: Global, kinds: &[ValueType]) -> Result<Locals, AllocError>
        ensures { IfOk result (λ l. l ≡ kinds.now) }
    {
        let mut locals = Locals::new(alloc);
        for kind in kinds {
            locals = locals.with(1, *kind)?;
        }
        Ok(locals)
    }

    /// The same, and so many more of a type behind them.
    pub fn with(self, count: usize, kind: ValueType) -> Result<Locals, AllocError>
        requires room { length self + count ≤ usize.MAX }
        ensures { IfOk result (λ l. l ≡ self ++ replicate count kind) }
    {
        Ok(Locals {
            groups: extended(self.groups, count, kind)?,
        })
    }

    /// The fewest groups that they stand in.
    #[tactic(auto, using(crate::proofs::Groups::groups_are))]
    pub fn groups(&self) -> &[Group]
        ensures groups { result.now ≡ groups_of self.now }
        ensures locals { locals_of result.now ≡ self.now }
    {
        self.groups.as_slice()
    }

    /// Puts their types behind others, one by one.
    pub fn add_to(&self, kinds: &mut Vec<ValueType>) -> Result<(), AllocError>
        ensures { OnOk result (kinds.new.items ≡ kinds.old.items ++ self.now) }
    {
        let groups = self.groups();
        for group in groups {
            add(kinds, group.count, group.kind)?;
        }
        Ok(())
    }
}
