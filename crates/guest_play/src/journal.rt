//! The journal of the guests of a module.

ghost use Rattle.std.specs.Prelude.{◌≡◌, ◌<◌, [], List, length, IsTrue, IfOk};
ghost use Rattle.edge_imports.specs.Links.{LinkedModule};
ghost use Rattle.player.specs.Plays.{Program};
ghost use Rattle.schedule_play.specs.Links.{Asks};
ghost use Rattle.schedule_play.specs.Schedule.{are_steps_of};
ghost use Rattle.guest_run.specs.Services.{fuel_in, settings_in, random_in, IsServiceOf};
ghost use Rattle.guest_play.specs.Guests.{AreGuestPrograms};
ghost use Rattle.guest_play.specs.Journal.{IsGuestJournal};

use crate::play::play_guests;
use cache_types::{Octets, OneCache};
use edge_outside::Link;
use guest_run::{Service, each_guest_has_a_program};
use http_front::Incoming;
use journal_writer::journal_text;
use script_lines::Step;
use std::alloc::{AllocError, Global};

/// The journal of a schedule of guests, one for each request, over any empty cache.
pub fn guests_journal<S: OneCache + Drop, L: Link>(
    alloc: Global,
    mut cache: S,
    service: &Service<'_>,
    requests: &[Incoming],
    steps: &[Step],
    link: &mut L,
) -> Result<Octets, AllocError>
    requires empty { S.history cache ≡ [] }
    requires service { (l : LinkedModule) × IsServiceOf l service.now }
    requires steps { IsTrue (are_steps_of (length requests.now) steps.now) }
    ensures journal { (l : LinkedModule) (programs : List Program) → IsServiceOf l service.now → AreGuestPrograms l (settings_in service.now) (fuel_in service.now) (random_in service.now) requests.now programs → IfOk result (IsGuestJournal (Asks L.starts L.polls L.waits L.chooses) (S.most cache) programs steps.now link.old link.new) }
    ensures some { IfOk result (λ text. 0 < length text) }
{
    each_guest_has_a_program();
    let blocks = play_guests(alloc, &mut cache, service, requests, steps, link)?;
    let history = cache.into_history();
    journal_text(alloc, &history, blocks.as_slice())
}
