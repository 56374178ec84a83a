//! Several files, one after another.

ghost use Rattle.std.specs.Prelude.{◌≡◌, ◌≤◌, List, map, length, IfOk, IsErrOf};
ghost use Rattle.edge_outside.specs.declared.fault.IoFault.TheVariants.{OutOfMemory};
ghost use Rattle.edge_outside.specs.Faults.{Rose};
ghost use Rattle.edge_outside.specs.Files.{Read, IsRead, pieces_read};
ghost use Rattle.edge_outside.specs.InOrder.{InOrder};
ghost use Rattle.edge_outside.specs.Made.{Made};

use crate::{Files, IoFault};
use std::alloc::Global;

/// The bytes of these files. Each is read once, in this order, up to the first read that fails.
pub fn read_all<F: Files>(
    alloc: Global,
    files: &mut F,
    names: &[&str],
) -> Result<Vec<Vec<u8>>, IoFault>
    ensures reads { (reads : List Read) × (Made (IsRead F.reads F.content) files.old reads files.new
        × InOrder (λ fault. fault ≡ OutOfMemory) (map (λ name. name.now) names.now) reads (pieces_read result)) }
    ensures count { IfOk result (λ pieces. length pieces.items ≡ length names.now) }
    ensures later { F.faults files.old ≤ F.faults files.new }
    ensures fault { IsErrOf result IoFault.Failed → Rose (F.faults files.old) (F.faults files.new) }
{
    let mut pieces = Vec::new(alloc);
    for name in names {
        pieces.push(files.read(alloc, name)?)?;
    }
    Ok(pieces)
}
