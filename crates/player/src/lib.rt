//! Guests that make outer calls, one at a time, and are told their replies.
//!
//! What a guest does is a function of the replies given to it: its program. A player promises that each call it gives
//! is the next one of its program behind the calls that were answered, whatever the guest is made of.
#![tactic(auto)]

mod player;
mod turn;

pub use player::Player;
pub use turn::Turn;
