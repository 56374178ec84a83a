//! What a module is linked to, and why it can't be.

use crate::hostcall::Hostcall;
use wasm_types::Items;

/// What a module is linked to.
#[derive(Debug, Drop)]
pub struct Links {
    /// The call of each import, by the import's index.
    pub calls: Items<Hostcall>,
    /// The index of the function that is exported as `_start`.
    pub start: u32,
}

/// Why a module can't be linked. Of several causes the first in this order is told, and of several
/// imports the first.
#[derive(Clone, Copy, Debug, PartialEq, Eq)]
pub enum LinkRefusal {
    /// The import at this index names no call. A table, a memory or a global is none.
    UnknownImport(u32),
    /// The function at this index of the imports isn't of its call's type.
    WrongType(u32),
    /// No function without parameters and result is exported as `_start`.
    NoStart,
    /// There is an import, and no memory is exported as `memory`.
    NoMemory,
    OutOfMemory,
}
