//! Plays the guests of a module by a schedule.

ghost use Rattle.std.specs.Prelude.{◌≡◌, [], List, length, IsTrue, IfOk, OnOk};
ghost use Rattle.cache_types.specs.Legal.{IsLegal};
ghost use Rattle.edge_imports.specs.Links.{LinkedModule};
ghost use Rattle.player.specs.Plays.{Program};
ghost use Rattle.schedule_play.specs.Links.{Asks};
ghost use Rattle.schedule_play.specs.Schedule.{are_steps_of};
ghost use Rattle.schedule_play.specs.Blocks.{HasBlocks, keep_limits};
ghost use Rattle.schedule_play.specs.Scheduled.{IsScheduled};
ghost use Rattle.guest_run.specs.Services.{fuel_in, settings_in, random_in, IsServiceOf};
ghost use Rattle.guest_run.specs.Guests.{GuestWants};
ghost use Rattle.guest_play.specs.Guests.{AreGuestPrograms};

use crate::guests::new_guests;
use cache_types::{Done, OneCache};
use edge_outside::Link;
use guest_run::{Service, each_guest_has_a_program};
use http_front::Incoming;
use schedule_play::play;
use script_lines::Step;
use std::alloc::{AllocError, Global};

/// Plays a guest for each request by a schedule over an empty cache, and gives the block of each, in order.
/// Want of memory in the cache, at the link or in a guest stops that guest; anywhere else it ends the whole play.
pub fn play_guests<S: OneCache, L: Link>(
    alloc: Global,
    cache: &mut S,
    service: &Service<'_>,
    requests: &[Incoming],
    steps: &[Step],
    link: &mut L,
) -> Result<Vec<Done>, AllocError>
    requires empty { S.history cache.old ≡ [] }
    requires service { (l : LinkedModule) × IsServiceOf l service.now }
    requires steps { IsTrue (are_steps_of (length requests.now) steps.now) }
    // The history and the blocks are those of the schedule of the guests' programs.
    ensures schedule { (l : LinkedModule) (programs : List Program) → IsServiceOf l service.now → AreGuestPrograms l (settings_in service.now) (fuel_in service.now) (random_in service.now) requests.now programs → IfOk result (λ blocks. IsScheduled (Asks L.starts L.polls L.waits L.chooses) GuestWants (S.most cache.old) programs steps.now link.old link.new (S.history cache.new) blocks.items) }
    ensures blocks { (l : LinkedModule) (programs : List Program) → IsServiceOf l service.now → AreGuestPrograms l (settings_in service.now) (fuel_in service.now) (random_in service.now) requests.now programs → IfOk result (λ blocks. HasBlocks (S.history cache.new) programs blocks.items) }
    ensures legal { OnOk result (IsLegal (S.history cache.new)) }
    ensures limits { OnOk result (IsTrue (keep_limits (S.history cache.new))) }
{
    each_guest_has_a_program();
    let mut guests = new_guests(alloc, service, requests)?;
    play(alloc, cache, guests.as_mut_slice(), steps, link)
}
