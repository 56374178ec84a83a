//! The limits of a module: what this project takes of each size that the specification leaves to an implementation
//! (section A.1), and the specification's own limit on the pages of a memory (section 3.2.4).

/// The bytes of a module.
pub const MOST_BYTES: usize = 16_777_216;

/// The types of functions.
pub const MOST_TYPES: u32 = 65_536;

/// The functions of a module's own.
pub const MOST_FUNCTIONS: u32 = 65_536;

/// The globals of a module's own.
pub const MOST_GLOBALS: u32 = 4_096;

/// The locals of a function, its parameters among them.
pub const MOST_LOCALS: usize = 4_096;

/// The labels of a `br_table`, but for the default one.
pub const MOST_LABELS: u32 = 65_536;

/// The blocks that stand inside one another.
pub const MOST_NESTED: usize = 1_024;

/// The operands of a function at one time.
pub const MOST_OPERANDS: usize = 1_024;

/// The entries that a table begins with.
pub const MOST_ENTRIES: u32 = 65_536;

/// The pages that a memory begins with.
pub const MOST_PAGES: u32 = 2_048;

/// The pages that a memory may ever have by the specification.
pub const PAGES: u32 = 65_536;
