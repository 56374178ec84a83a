//! From a surrogate key to the objects that may have it, so that a purge finds them without a walk.
//!
//! A list names every object that has its key, and it may name more: an update gives an object new
//! keys and takes none out of a list. So who purges tests each object that is named.
#![tactic(auto)]

mod keys;

pub use keys::{KeyMap, add_all, named};
