//! The way of a module from its bytes to its links.

ghost use Rattle.std.specs.Prelude.{◌≡◌, IfOk, IfErr};
ghost use Rattle.edge_imports.specs.Links.{LinkedModule};
ghost use Rattle.edge_modules.specs.Loading.{IsLoaded, IsCause, IsAnswered, stop_of, link_stop};

use crate::fault::{ModuleFault, Stopped};
use edge_imports::{LinkRefusal, Linked, link};
use std::alloc::Global;
use wasm_accept::{Refusal, accept};
use wasm_code::ReadKind;
use wasm_validate::ValidKind;

/// Why nothing was accepted.
fn stopped(refusal: Refusal) -> Stopped
    ensures { result ≡ stop_of refusal }
{
    match refusal {
        Refusal::Read(fault) => match fault.kind {
            ReadKind::OutOfMemory => Stopped::OutOfMemory,
            _ => Stopped::Fault(ModuleFault::Read(fault)),
        },
        Refusal::Valid(fault) => match fault.kind {
            ValidKind::OutOfMemory => Stopped::OutOfMemory,
            _ => Stopped::Fault(ModuleFault::Valid(fault)),
        },
    }
}

/// Why nothing was linked.
fn unlinked(refusal: LinkRefusal) -> Stopped
    ensures { result ≡ link_stop refusal }
{
    match refusal {
        LinkRefusal::OutOfMemory => Stopped::OutOfMemory,
        _ => Stopped::Fault(ModuleFault::Link(refusal)),
    }
}

/// The module that the bytes spell, validated and linked.
pub fn load(alloc: Global, bytes: &[u8]) -> Result<Linked, Stopped>
    // What is answered is spelled by the bytes, valid and linked.
    ensures loaded { IfOk result (IsLoaded bytes.now) }

    // What is spelled by the bytes, valid and linked is answered, unless memory runs out.
    ensures only { (l : LinkedModule) → IsLoaded bytes.now l → IsAnswered l result }

    // Which fault it is.
    ensures cause { IfErr result (IsCause bytes.now) }
{
    match accept(alloc, bytes) {
        Err(refusal) => Err(stopped(refusal)),
        Ok(valid) => match link(alloc, valid) {
            Ok(linked) => Ok(linked),
            Err(refusal) => Err(unlinked(refusal)),
        },
    }
}
