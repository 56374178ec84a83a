//! One cache that any number of guests on any threads call, each worker by its own pass.
//!
//! The cache stands on a turnstile, so its calls come one at a time, and there is one history. `Tried` in `specs/Calls.antt`
//! says what one call did: the list that the cache stood for, the reply that it gives there, and what the pass has seen
//! and made since. `Waited` in `specs/Until.antt` says what the tries before it did. To the layer above: what a pass has
//! seen is legal, all entries of a guest that began through it are among its own, and the pass with all parts gets the
//! history back, with every entry that was added its own.
#![tactic(auto)]

mod faults;
mod hub;
mod shelf;
mod until;

pub use faults::{CallFault, UntilFault};
pub use hub::Hub;
pub use shelf::{HubPass, Shelf};
