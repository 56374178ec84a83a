//! The instance of a guest, and the beginning of its code.
ghost use Rattle.std.specs.Prelude.{◌≡◌, ◌∷◌, Some, IfOk};
ghost use Rattle.player.specs.Plays.{Program};
ghost use Rattle.guest_run.specs.Services.{starts_in};
ghost use Rattle.guest_run.specs.Lives.{IsNext, IsPaused, listed};
ghost use Rattle.guest_run.specs.Guests.{IsBeginning, IsSame, ComesTo};

use crate::guest::Guest;
use crate::life::{Left, Pause, live_on};
use crate::service::Service;
use cache_types::{Outcome, TrapNumber};
use guest_calls::GuestTables;
use module_machine::{Machine, NewFault};
use std::alloc::{AllocError, Global};

/// The function with which the code begins, and the one that follows where it returns.
fn starts(service: &Service) -> (u32, Option<u32>)
    ensures { result.0 ∷ listed result.1 ≡ starts_in service.now }
{
    let start = service.linked.start();
    match service.linked.valid().module().start {
        Some(function) => (function, Some(start)),
        None => (start, None),
    }
}

/// Starts the code, and runs it until its program is to make an outer call.
fn begin(
    alloc: Global,
    service: &Service,
    machine: &mut Machine,
    tables: &mut GuestTables,
) -> Result<Pause, AllocError>
    ensures { (meaning : Program) → IsNext service.now.calls.items meaning service.now.fuel (starts_in service.now) machine.old tables.old → IfOk result (λ pause. IsPaused service.now.calls.items meaning pause machine.new tables.new) }
{
    let (function, follows) = starts(service);
    machine.start(function)?;
    let left = Left {
        fuel: service.fuel,
        follows,
    };
    live_on(alloc, service.calls.as_slice(), machine, tables, left)
}

fn set_machine<'a>(place: &mut Option<Machine<'a>>, machine: Machine<'a>)
    ensures { place.new ≡ Some machine.entry }
{
    *place = Some(machine);
}

/// Makes the instance, and goes on with the code from its beginning.
pub fn go_begun(guest: &mut Guest) -> Result<Pause, AllocError>
    ensures comes_to { (meaning : Program) → IsBeginning guest.old.service.now guest.old.tables meaning → ComesTo guest.new result meaning }
    ensures events { guest.new.events ≡ guest.old.events }
    ensures same { IsSame guest.old guest.new }
{
    let service = guest.service;
    match Machine::new(guest.alloc, &service.image) {
        Ok(mut machine) => {
            let pause = begin(guest.alloc, service, &mut machine, &mut guest.tables);
            set_machine(&mut guest.machine, machine);
            pause
        }
        Err(NewFault::Segment) => Ok(Pause::Ending {
            outcome: Outcome::Trapped(TrapNumber::Segment),
        }),
        Err(NewFault::OutOfMemory) => Err(AllocError),
    }
}
