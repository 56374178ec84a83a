//! What a cache is asked, what it replies, and what its replies mean.
//!
//! The meaning stands in `specs/`: a history is a list of entries, and the one reply to a call is
//! found by filters over the entries before it (`answer`). A cache is whatever implements
//! `OneCache`: its contract says that each step gives that reply and appends that entry.
#![tactic(auto)]

mod calls;
mod copied;
mod entries;
mod freshness;
mod limits;
mod octets;
mod one_cache;
mod outer;
mod replies;
mod rule;

pub use calls::{CacheCall, Field, Fields, Terms, Writing};
pub use copied::Copied;
pub use entries::{Entry, History, StepFault, Stepped};
pub use freshness::{bits_of, is_fresh_at, is_usable_at};
pub use items::Items;
pub use limits::{
    MOST_KEY, MOST_NAME, MOST_OBJECT, MOST_SURROGATE, is_cache_key, is_header_name,
    is_surrogate_key,
};
pub use octets::{Octets, OctetsList};
pub use one_cache::OneCache;
pub use outer::{Done, Event, Numbers, Outcome, OuterCall, OuterReply, Trace, TrapNumber};
pub use replies::{Hit, Reply, Variant};
pub use rule::Rule;
