//! The lines of scripted guests.

use cache_types::{CacheCall, Items};

/// What stands in a line for the entry that its call names.
#[derive(Clone, Copy, Debug, PartialEq, Eq)]
pub enum Named {
    /// The call names no entry.
    Nothing,
    /// The entry of an earlier line of the same guest, counted from 1.
    Line(u64),
    /// The number itself.
    Number(u64),
}

/// A call of a scripted guest. The call has 0 in the place of the entry that it names.
#[derive(Debug, Drop)]
pub struct Line {
    pub call: CacheCall,
    pub named: Named,
}

/// The lines of one guest's block.
pub type Lines = Items<Line>;

/// The blocks of all guests.
pub type Blocks = Items<Lines>;
