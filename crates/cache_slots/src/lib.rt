//! Where an object stands: a key, a rule of the key, and the values of the rule's headers. Slots
//! have an order, so that std's maps can be asked for one.
#![tactic(auto)]

mod slot;
mod variants;

pub use slot::Slot;
