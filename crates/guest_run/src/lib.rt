//! One guest of a module: its code in the machine, and its hostcalls, as a player of outer calls.
//!
//! What a guest does next is a function of the replies given to it (`next` of `specs/Origins.antt`, over `live` of
//! `specs/Next.antt`): Begin, then what its code does with the fuel of the whole run, each call of an import being the row that
//! it is, then End. The code is the module's start function, where it has one, and then `_start`. It is fixed by the module, the
//! settings, the seed, the guest's number, the fuel and the request alone. A [`Guest`] promises what every `Player` does, for
//! that program.
//!
//! Which calls of imports there are is `guest_calls`'s to say: a [`Service`] exists only of a module whose calls all stand, so
//! nothing here answers a call that doesn't stand yet.
#![tactic(auto)]

mod beginning;
mod guest;
mod laws;
mod life;
mod phase;
mod playing;
mod service;

pub use guest::Guest;
pub use laws::{each_guest_has_a_program, fuel_is_enough};
pub use player::{Player, Turn};
pub use service::{Service, ServiceFault};
