//! Plays scripted guests by a schedule.

ghost use Rattle.std.specs.Prelude.{◌≡◌, [], false, length, IsTrue, IfOk, OnOk};
ghost use Rattle.std.specs.List.{list_all};
ghost use Rattle.cache_types.specs.Legal.{IsLegal};
ghost use Rattle.edge_play.specs.Schedule.{IsPlayed, are_steps_of};
ghost use Rattle.edge_play.specs.Blocks.{HasBlocks, is_script, keep_limits};
ghost use Rattle.edge_play.specs.OneResult.{IsOneResult, one_wanted};

use crate::guests::new_guests;
use cache_types::{Done, OneCache};
use edge_outside::NoLink;
use schedule_play::play;
use script_lines::{Lines, Step};
use std::alloc::{AllocError, Global};

/// Plays scripted guests by a schedule over an empty cache, and gives the block of each, in order.
/// Want of memory in the cache or in a guest stops that guest; anywhere else it ends the whole play.
pub fn play_scripts<S: OneCache>(
    alloc: Global,
    cache: &mut S,
    scripts: &[Lines],
    steps: &[Step],
) -> Result<Vec<Done>, AllocError>
    requires empty { S.history cache.old ≡ [] }
    requires scripts { IsTrue (list_all is_script scripts.now) }
    requires steps { IsTrue (are_steps_of (length scripts.now) steps.now) }
    ensures schedule { IfOk result (λ blocks. IsPlayed (S.most cache.old) scripts.now steps.now (S.history cache.new) blocks.items) }
    // Where no block tells want of memory, there is no other result.
    ensures one_result { IfOk result (λ blocks. one_wanted blocks.items ≡ false → IsOneResult (S.most cache.old) scripts.now steps.now (S.history cache.new) blocks.items) }
    ensures legal { OnOk result (IsLegal (S.history cache.new)) }
    ensures limits { OnOk result (IsTrue (keep_limits (S.history cache.new))) }
    ensures blocks { IfOk result (λ blocks. HasBlocks (S.history cache.new) scripts.now blocks.items) }
{
    let mut guests = new_guests(alloc, scripts)?;
    let mut link = NoLink::new();
    play(alloc, cache, guests.as_mut_slice(), steps, &mut link)
}
