//! The work of `load`.

ghost use Rattle.std.specs.Prelude.{◌≡◌, ◌<◌, IfOk, length};
ghost use Rattle.edge_top.specs.Load.{Loads};

use crate::exit::Exit;
use crate::script::MOST_ENTRIES;
use cache_core::CoreCache;
use cache_types::Octets;
use edge_load::load_line;
use std::alloc::Global;

/// The line of the load with this number. Where a guest was stopped for want of memory, there is none.
pub fn load_text(alloc: Global, number: u64) -> Result<Octets, Exit>
    ensures gives { Loads number result }
    ensures some { IfOk result (λ text. 0 < length text) }
{
    Ok(load_line(alloc, CoreCache::new(alloc, MOST_ENTRIES), number)?)
}
