//! The guests of scripts, before their first step.

ghost use Rattle.std.specs.Prelude.{◌≡◌, IsTrue, IfOk};
ghost use Rattle.std.specs.List.{list_all};
ghost use Rattle.edge_play.specs.Blocks.{is_script};
ghost use Rattle.edge_play.specs.Guests.{AreGuests};

use cache_types::{Copied, Items};
use script_lines::{Line, Lines};
use scripted_guest::Scripted;
use std::alloc::{AllocError, Global};

/// The same lines once more. Their bytes are shared.
fn copied(alloc: Global, lines: &Lines) -> Result<Lines, AllocError>
    ensures { IfOk result (λ copy. copy ≡ lines.now) }
{
    let mut copy = Vec::new(alloc);
    for line in lines.items() {
        copy.push(Line {
            call: line.call.copy(alloc)?,
            named: line.named,
        })?;
    }
    Ok(Items::of(copy))
}

/// A new guest for each script.
pub fn new_guests(alloc: Global, scripts: &[Lines]) -> Result<Vec<Scripted>, AllocError>
    requires { IsTrue (list_all is_script scripts.now) }
    ensures { IfOk result (λ guests. AreGuests guests.items scripts.now) }
{
    let mut guests = Vec::new(alloc);
    for script in scripts {
        guests.push(Scripted::new(alloc, copied(alloc, script)?)?)?;
    }
    Ok(guests)
}
