//! What a batch file says.

use cache_types::Octets;
use play_files::Requests;

/// What a batch file says.
#[derive(Debug, Drop)]
pub struct BatchFile {
    /// The instructions and hostcalls that each guest may make.
    pub fuel: u64,
    /// 32 bytes, from which the random numbers of guests come.
    pub random: Octets,
    /// How long each guest may take, in nanoseconds.
    pub limit: u64,
    /// How many workers run them, from 1 to 16.
    pub workers: u64,
    pub requests: Requests,
}
