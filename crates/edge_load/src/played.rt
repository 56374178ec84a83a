//! A load that is played over a cache.

ghost use Rattle.std.specs.Prelude.{◌≡◌, [], IfOk};
ghost use Rattle.edge_play.specs.OneResult.{one_wanted};
ghost use Rattle.edge_load.specs.Playable.{IsPlayable, IsHistoryOf};
ghost use Rattle.edge_load.specs.Told.{IsLoadLine};

use crate::load::load_run;
use crate::told::line_of;
use cache_types::{Done, History, Octets, OneCache, Outcome};
use edge_play::play_scripts;
use run_files::Run;
use std::alloc::{AllocError, Global};

/// Whether a guest was stopped for want of memory.
fn one_wanted(blocks: &[Done]) -> bool
    ensures { result ≡ one_wanted blocks.now }
{
    blocks
        .iter()
        .any(|done| matches!(done.outcome, Outcome::OutOfMemory))
}

/// The history of a run over an empty cache. Where a guest was stopped for want of memory, there is none.
pub fn history_of<S: OneCache + Drop>(
    alloc: Global,
    mut cache: S,
    run: &Run,
) -> Result<History, AllocError>
    requires empty { S.history cache ≡ [] }
    requires playable { IsPlayable run.now }
    ensures { IfOk result (IsHistoryOf (S.most cache) run.now) }
{
    let blocks = play_scripts(alloc, &mut cache, run.guests.items(), run.steps.items())?;
    if one_wanted(blocks.as_slice()) {
        return Err(AllocError);
    }
    Ok(cache.into_history())
}

/// Plays the load with this number over an empty cache, and tells its one line.
pub fn load_line<S: OneCache + Drop>(
    alloc: Global,
    cache: S,
    number: u64,
) -> Result<Octets, AllocError>
    requires empty { S.history cache ≡ [] }
    ensures { IfOk result (IsLoadLine (S.most cache) number) }
{
    let run = load_run(alloc, number)?;
    let history = history_of(alloc, cache, &run)?;
    line_of(alloc, number, history.entries())
}
