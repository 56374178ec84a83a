//! The work of `check`.

ghost use Rattle.std.specs.Prelude.{◌≡◌, ◌<◌, IfOk, length};
ghost use Rattle.edge_modules.specs.Text.{module_line};
ghost use Rattle.edge_top.specs.Check.{Checks};

use crate::exit::Exit;
use cache_types::Octets;
use edge_imports::Linked;
use edge_modules::{load, module_line};
use std::alloc::{AllocError, Global};

// The line of a module, as bytes.
fn line_of(alloc: Global, linked: &Linked) -> Result<Octets, AllocError>
    ensures { IfOk result (λ line. line ≡ module_line linked.now.whole) }
{
    let line = module_line(alloc, linked)?;
    Octets::of(alloc, line.as_bytes())
}

/// The line that tells what the module is that the bytes spell, or why there is none.
pub fn check_text(alloc: Global, bytes: &[u8]) -> Result<Octets, Exit>
    ensures gives { Checks bytes.now result }
    ensures some { IfOk result (λ text. 0 < length text) }
{
    let linked = load(alloc, bytes)?;
    match line_of(alloc, &linked) {
        Ok(line) => Ok(line),
        Err(_) => Err(Exit::OutOfMemory),
    }
}
