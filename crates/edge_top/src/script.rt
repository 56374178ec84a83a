//! The work of `script`.

ghost use Rattle.std.specs.Prelude.{◌≡◌, ◌≤◌, ◌<◌, [], IfOk, length};
ghost use Rattle.run_files.specs.Run.{IsRun};
ghost use Rattle.edge_top.specs.Script.{IsJournalOf, Scripts};

use crate::exit::Exit;
use cache_core::CoreCache;
use cache_types::{Octets, OneCache};
use edge_play::play_scripts;
use journal_writer::journal_text;
use run_files::{Run, read_run};
use std::alloc::{AllocError, Global};

/// The greatest number of entries and live guests.
pub const MOST_ENTRIES: u64 = 1_000_000;

/// The journal of a run over any empty cache.
pub fn journal_over<S: OneCache + Drop>(
    alloc: Global,
    mut cache: S,
    run: &Run,
) -> Result<Octets, AllocError>
    requires empty { S.history cache ≡ [] }
    requires run { IsRun run.now }
    ensures { IfOk result (IsJournalOf (S.most cache) run.now) }
{
    let blocks = play_scripts(alloc, &mut cache, run.guests.items(), run.steps.items())?;
    let history = cache.into_history();
    journal_text(alloc, &history, blocks.as_slice())
}

/// The journal of a run over a cache with room for so many entries and live guests.
pub fn journal_of(alloc: Global, most: u64, run: &Run) -> Result<Octets, AllocError>
    requires room { 2 ≤ most }
    requires run { IsRun run.now }
    ensures { IfOk result (IsJournalOf most run.now) }
{
    journal_over(alloc, CoreCache::new(alloc, most), run)
}

/// The journal of the run that the bytes spell, or why there is none.
pub fn script_text(alloc: Global, bytes: &[u8]) -> Result<Octets, Exit>
    ensures gives { Scripts bytes.now result }
    ensures some { IfOk result (λ text. 0 < length text) }
{
    let run = read_run(alloc, bytes)?;
    Ok(journal_of(alloc, MOST_ENTRIES, &run)?)
}
