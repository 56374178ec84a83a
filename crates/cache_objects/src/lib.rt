//! What became of each object, by its number, and which objects each live guest made.
//!
//! Nothing here knows of entries: who tells of a Finish, a Purge or an End says which objects it
//! changes, and each change is of these objects alone.
#![tactic(auto)]

mod changes;
mod guests;
mod one;
mod standing;

pub use changes::{leave_all, purge_all};
pub use guests::{GuestMap, add, begin, leave, make_room};
pub use one::{ObjectMap, abandon, extend, finish, make, renew};
pub use standing::Standing;
