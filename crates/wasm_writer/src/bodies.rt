//! Code (section 5.5.13).

ghost use Rattle.std.specs.Prelude.{◌≡◌, ◌++◌, IfOk};
ghost use Rattle.wasm_writer.specs.Spelled.{group_text, body_text, sized_body_text};

use crate::instructions::write_code;
use crate::numbers::write_number;
use crate::sections::write_sized;
use crate::types::type_byte;
use crate::vectors::{Spelling, write_vector};
use std::alloc::{AllocError, Global};
use wasm_types::{Code, Group};

#[tactic(auto, unfolding(crate::specs::Spelled::group_text))]
fn write_group(out: &mut Vec<u8>, group: &Group) -> Result<(), AllocError>
    ensures { IfOk result (λ _. out.new.items ≡ out.old.items ++ group_text group.now) }
{
    write_number(out, group.count as u64)?;
    out.push(type_byte(group.kind))?;
    Ok(())
}

/// A group of locals.
#[derive(Drop)]
struct Groups;

impl Spelling for Groups {
    type Item = Group;

    ghost text = { λ _. group_text };

    fn write(&self, out: &mut Vec<u8>, item: &Group) -> Result<(), AllocError> {
        write_group(out, item)
    }
}

#[tactic(auto, unfolding(crate::specs::Spelled::body_text))]
fn write_body(out: &mut Vec<u8>, item: &Code) -> Result<(), AllocError>
    ensures { IfOk result (λ _. out.new.items ≡ out.old.items ++ body_text item.now) }
{
    write_vector(out, &Groups, item.locals.groups())?;
    write_code(out, item.body.items())
}

/// A function's code.
#[derive(Drop)]
struct Body;

impl Spelling for Body {
    type Item = Code;

    ghost text = { λ _. body_text };

    fn write(&self, out: &mut Vec<u8>, item: &Code) -> Result<(), AllocError> {
        write_body(out, item)
    }
}

#[tactic(auto, unfolding(crate::specs::Spelled::sized_body_text))]
fn write_sized_body(alloc: Global, out: &mut Vec<u8>, item: &Code) -> Result<(), AllocError>
    ensures { IfOk result (λ _. out.new.items ≡ out.old.items ++ sized_body_text item.now) }
{
    write_sized(alloc, out, &Body, item)
}

/// A function's code behind the number of its bytes, as an item.
#[derive(Drop)]
pub(crate) struct Bodies {
    pub alloc: Global,
}

impl Spelling for Bodies {
    type Item = Code;

    ghost text = { λ _. sized_body_text };

    fn write(&self, out: &mut Vec<u8>, item: &Code) -> Result<(), AllocError> {
        write_sized_body(self.alloc, out, item)
    }
}
