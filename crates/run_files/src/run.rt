//! What a run file says.

use script_lines::{Blocks, Steps};

/// What a run file says.
#[derive(Debug, Drop)]
pub struct Run {
    pub guests: Blocks,
    pub steps: Steps,
}
