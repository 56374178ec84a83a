//! Rows that wait for the reply to their outer call.

use edge_abi::Step;
use edge_body::Body;
use edge_http_calls::To;

/// What a row is whose parts are written on.
#[derive(Clone, Copy, Debug, PartialEq, Eq)]
pub enum Then {
    /// The parts are those of this body, which is appended to another.
    Append {
        second: u32,
    },
    /// They are the answer's, which ends with them, or is streamed on.
    Send {
        response: u32,
        body: u32,
        streamed: bool,
    },
}

/// A row that waits.
#[derive(Drop)]
pub enum UnderWay {
    /// A body that fills an object is finished.
    Finishing {
        body: u32,
    },
    /// The streamed answer is closed whole.
    Closing {
        body: u32,
    },
    /// A body that fills an object is abandoned.
    Abandoning {
        body: u32,
    },
    /// The streamed answer is cut.
    Cutting {
        body: u32,
    },
    /// A piece of so many bytes is written; their number is told at the place.
    Writing {
        to: To,
        taken: u32,
        count: u32,
    },
    /// A hit is read for the guest, into a buffer; these parts stand behind it.
    Fetching {
        body: u32,
        place: u32,
        most: u32,
        count: u32,
        hit: u64,
        from: u64,
        length: Option<u64>,
        left: Body,
    },
    /// The head of an answer is sent, which has these parts.
    Heading {
        then: Then,
        left: Body,
    },
    /// A piece is written; these parts are left.
    Moving {
        to: To,
        then: Then,
        left: Body,
    },
    /// A hit is read, and what it has is written on.
    Reading {
        to: To,
        then: Then,
        hit: u64,
        place: u64,
        left: Body,
    },
    /// An answer is closed whole, behind its last part.
    Ending {
        response: u32,
        body: u32,
    },
    /// An answer is cut, since a part of it failed.
    Failing,
}

/// What a row on bodies has come to.
pub type BodyStep = Step<UnderWay>;
