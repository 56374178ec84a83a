//! What the host meets outside of itself: the files that it reads, the source that it reads piece by piece, the sink
//! that it writes to, connections, which are both, and the listener that they come from, the links to backends, the clock;
//! and a gate, at which a test may hold guests.
//!
//! Each that can fail is a trait with a count of faults that never falls: an answer `Failed` comes only where the count rose
//! in that call. A ghost relation for each call says that this call was made, with this answer, whichever object it is, so that a
//! clause above can tell how many calls were made and which. What an object holds is told where it can be known, as in
//! memory, and the clauses on it hold where it is told.
//!
//! Several calls one after another are a list, each with what was asked and what was answered: `specs/Made.antt` says that
//! these were made, in this order and no others, of any kind of call.
//!
//! The fakes in memory stand here too. Each fails at the calls that it is told, counted from 1.
#![tactic(auto)]

mod clock;
mod fault;
mod files;
mod gate;
mod in_order;
mod laws;
mod link;
mod listener;
mod mem_clock;
mod mem_conn;
mod mem_files;
mod mem_link;
mod mem_listener;
mod mem_sink;
mod mem_source;
mod no_link;
mod null_sink;
mod peer;
mod plan;
mod sink;
mod source;

pub use clock::Clock;
pub use fault::{Failed, IoFault};
pub use files::Files;
pub use gate::{FreeGate, Gate};
pub use in_order::read_all;
pub use laws::{reads_are_shown, writes_are_shown};
pub use link::Link;
pub use listener::Listener;
pub use mem_clock::MemClock;
pub use mem_conn::MemConn;
pub use mem_files::{MemFiles, NamedFile};
pub use mem_link::{MemLink, MemReply};
pub use mem_listener::MemListener;
pub use mem_sink::MemSink;
pub use mem_source::MemSource;
pub use no_link::NoLink;
pub use null_sink::NullSink;
pub use peer::Peer;
pub use sink::Sink;
pub use source::Source;
