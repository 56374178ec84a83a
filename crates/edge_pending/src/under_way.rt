//! Rows that wait for the reply to their outer call.

use crate::sending::{Sending, Then};
use cache_types::{Items, Octets};
use edge_abi::Step;
use edge_body::Body;
use edge_words::Text;

/// A number that is told before the handles of a response and its body.
#[derive(Clone, Copy, Debug, PartialEq, Eq)]
pub enum Lead {
    Nothing,
    Number { place: u32, value: u32 },
}

/// Where a response is told: the number before it, the place of its handle, and that of its body's.
#[derive(Clone, Copy, Debug, PartialEq, Eq)]
pub struct Places {
    pub lead: Lead,
    pub response: u32,
    pub body: u32,
}

/// A row that waits.
#[derive(Drop)]
pub enum UnderWay {
    /// A hit of the request's body is read; these bytes stand before it, these parts behind it.
    Gathering {
        sending: Sending,
        hit: u64,
        place: u64,
        had: Text,
        left: Body,
    },
    /// A request of this method is sent.
    Starting {
        method: Octets,
        next: Then,
    },
    /// The response to a request of this method is waited for.
    Receiving {
        method: Octets,
        places: Places,
    },
    /// A handle's response is asked for; whether it came is told at a place.
    Polling {
        handle: u32,
        ready: u32,
        response: u32,
        body: u32,
    },
    /// A handle's response is waited for.
    Waiting {
        handle: u32,
        places: Places,
    },
    /// One of these handles is chosen, whose response is told.
    Choosing {
        handles: Items<u32>,
        index: u32,
        response: u32,
        body: u32,
    },
    /// One of some handles is chosen; its place among them is told.
    Picking {
        index: u32,
    },
    /// A handle's response is asked for, and kept.
    Peeking {
        handle: u32,
        place: u32,
    },
}

/// What a row has come to.
pub type PendingStep = Step<UnderWay>;
