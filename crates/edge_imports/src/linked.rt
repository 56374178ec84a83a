//! Modules that are linked.

ghost use Rattle.std.specs.Prelude.{◌≡◌, ◌<◌, ◌⊎◌, Ok, Err, Some, length, IfOk, IfErr};
ghost use Rattle.edge_imports.specs.declared.links.LinkRefusal.TheVariants.{OutOfMemory};
ghost use Rattle.edge_imports.specs.Links.{linked, hostcall_at};

use crate::hostcall::Hostcall;
use crate::linking::links_of;
use crate::links::{LinkRefusal, Links};
use std::alloc::Global;
use std::marker::Model;
use wasm_validate::Valid;

/// A valid module that is linked. Contracts see the module and its links.
#[derive(Drop)]
pub struct Linked {
    valid: Valid,
    links: Links,
}

impl Model for Linked {
    ghost use Rattle.std.specs.Prelude.{◌≡◌, Ok};
    ghost use Rattle.edge_imports.specs.Links.{LinkedModule, linked};

    ghost Value = { LinkedModule };

    ghost view = { λ l. record { whole = l.valid; links = l.links } };

    ghost invariant = { λ l. linked l.valid ≡ Ok l.links };
}

impl Linked {
    /// The valid module.
    pub fn valid(&self) -> &Valid
        ensures { result.now ≡ self.now.whole }
    {
        &self.valid
    }

    /// The index of the function that is exported as `_start`.
    pub fn start(&self) -> u32
        ensures { result ≡ self.now.links.start }
    {
        self.links.start
    }

    /// The call of an import.
    pub fn hostcall(&self, import: u32) -> Hostcall
        requires { import < length self.now.whole.imports }
        ensures { hostcall_at self.now.whole.imports import ≡ Some result }
    {
        self.links.calls.items()[import as usize]
    }
}

/// Links a valid module to the calls that it imports.
pub fn link(alloc: Global, valid: Valid) -> Result<Linked, LinkRefusal>
    // What is answered is the module with its links.
    ensures found { IfOk result (λ l. (l.whole ≡ valid) × (linked valid ≡ Ok l.links)) }

    // Which refusal it is, unless memory runs out.
    ensures refused { IfErr result (λ refusal. (refusal ≡ OutOfMemory) ⊎ (linked valid ≡ Err refusal)) }
{
    match links_of(alloc, valid.module()) {
        Ok(links) => Ok(Linked { valid, links }),
        Err(refusal) => Err(refusal),
    }
}
