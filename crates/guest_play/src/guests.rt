//! The guests of requests, before their first step.

ghost use Rattle.std.specs.Prelude.{◌≡◌, [], None, false, List, IfOk};
ghost use Rattle.edge_imports.specs.Links.{LinkedModule};
ghost use Rattle.player.specs.Plays.{Program};
ghost use Rattle.schedule_play.specs.Sits.{AreNew};
ghost use Rattle.guest_run.specs.Services.{fuel_in, settings_in, random_in, IsServiceOf};
ghost use Rattle.guest_run.specs.Guests.{GuestPlays, stopped_of, ended_of};
ghost use Rattle.guest_play.specs.Guests.{Answers, AreGuestPrograms};

use cache_types::Copied;
use guest_run::{Guest, Service};
use http_front::Incoming;
use std::alloc::{AllocError, Global};

/// The guest with this number, which is to answer a request. The bytes of the request are shared.
fn new_guest<'a, 'b>(
    alloc: Global,
    service: &'a Service<'b>,
    index: u64,
    request: &Incoming,
) -> Result<Guest<'a>, AllocError>
    ensures plays { IfOk result (λ guest. (l : LinkedModule) (program : Program) → IsServiceOf l service.now → Answers l (settings_in service.now) (fuel_in service.now) (random_in service.now) index request.now program → GuestPlays guest program []) }
    ensures stopped { IfOk result (λ guest. stopped_of guest ≡ None) }
    ensures ended { IfOk result (λ guest. ended_of guest ≡ false) }
{
    let head = request.head.copy(alloc)?;
    let body = request.body.copy(alloc)?;
    Guest::new(alloc, service, index, head, body)
}

/// A new guest for each request, with numbers from 1.
pub fn new_guests<'a, 'b>(
    alloc: Global,
    service: &'a Service<'b>,
    requests: &[Incoming],
) -> Result<Vec<Guest<'a>>, AllocError>
    ensures { IfOk result (λ guests. (l : LinkedModule) (programs : List Program) → IsServiceOf l service.now → AreGuestPrograms l (settings_in service.now) (fuel_in service.now) (random_in service.now) requests.now programs → AreNew GuestPlays stopped_of ended_of guests.items programs) }
{
    let mut guests = Vec::new(alloc);
    for i in 0..requests.len() {
        guests.push(new_guest(alloc, service, i as u64 + 1, &requests[i])?)?;
    }
    Ok(guests)
}
