//! A request as it stands in its text, and as it is handed on.
use cache_types::{Fields, Octets};
use edge_body::RequestHead;

/// The parts of a request's head as they stand in its text, names in lower case. The version is 0 or 1 for HTTP/1.0 and
/// 1.1.
#[derive(Debug, Drop)]
pub struct Head {
    pub method: Octets,
    pub target: Octets,
    pub version: u32,
    pub fields: Fields,
}

/// A request that was read whole.
#[derive(Debug, Drop)]
pub struct Incoming {
    pub head: RequestHead,
    pub body: Octets,
}
