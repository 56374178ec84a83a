//! What a play file says.

use cache_types::{Items, Octets};
use http_front::Incoming;
use script_lines::Steps;

/// The requests of a play file, one for each guest.
pub type Requests = Items<Incoming>;

/// What a play file says.
#[derive(Debug, Drop)]
pub struct PlayFile {
    /// The instructions and hostcalls that each guest may make.
    pub fuel: u64,
    /// 32 bytes, from which the random numbers of guests come.
    pub random: Octets,
    pub requests: Requests,
    pub steps: Steps,
}
