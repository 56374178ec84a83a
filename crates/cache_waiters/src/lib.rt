//! From a goal to the transaction that may hold it, and from a lookup to what ended it.
//!
//! `Goals` is told each transaction once, in order, and never of an end: of all transactions that
//! ever had a goal only the newest can be open, so whether the goal is held is whether that one is.
//! Endings are kept by number. What a guest's End ends is told nowhere: a transaction is open only
//! while its guest is live.
#![tactic(auto)]

mod endings;
mod goals;
mod laws;

pub use endings::{Ending, EndingMap, is_closed, is_over, make_room, tell};
pub use goals::{Goals, Holder};
pub use laws::newest_holds;
