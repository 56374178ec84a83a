//! What is made once for a module.

ghost use Rattle.std.specs.Prelude.{◌≡◌, Ok, IfOk};
ghost use Rattle.wasm_meaning.specs.Instance.{Instance, instance_of};
ghost use Rattle.module_machine.specs.Shared.{IsPrepared};

use std::alloc::{AllocError, Global};
use wasm_instance::{NewFault, start};
use wasm_jumps::Jumps;
use wasm_types::{Locals, Module};
use wasm_validate::Valid;

/// Where the blocks of a module's functions end, and its table, which no code changes.
#[derive(Drop)]
pub struct Prepared {
    pub(crate) jumps: Jumps,
    pub(crate) table: Vec<Option<u32>>,
    pub(crate) none: Locals,
}

// Of a module that doesn't start there is no table.
fn table_of(alloc: Global, whole: &Module) -> Result<Vec<Option<u32>>, AllocError>
    ensures { IfOk result (λ t. (i : Instance) → instance_of whole.now ≡ Ok i → t.items ≡ i.table) }
{
    match start(alloc, whole) {
        Ok(begun) => Ok(begun.table),
        Err(NewFault::Segment) => Ok(Vec::new(alloc)),
        Err(NewFault::OutOfMemory) => Err(AllocError),
    }
}

impl Prepared {
    pub fn new(alloc: Global, valid: &Valid) -> Result<Prepared, AllocError>
        ensures { IfOk result (IsPrepared valid.now) }
    {
        let whole = valid.module();
        let jumps = Jumps::new(alloc, whole.code.items())?;
        let table = table_of(alloc, whole)?;
        Ok(Prepared {
            jumps,
            table,
            none: Locals::new(alloc),
        })
    }
}
