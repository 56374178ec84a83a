//! Laws on the entries of one guest: what passes tell of their guests is told of the one history, once they are put
//! together.
#![tactic(auto)]

mod laws;

pub use laws::{ended_guest_is_whole, guest_zero_has_none, guests_of_two_differ};
