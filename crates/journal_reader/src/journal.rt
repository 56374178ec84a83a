//! What a journal says.

use cache_types::{Done, History, Items};

/// The guests' blocks, by rising indexes.
pub type Guests = Items<Done>;

/// What a journal says: the history of the cache, and a block for each guest.
#[derive(Debug, Drop)]
pub struct Journal {
    pub history: History,
    pub guests: Guests,
}
