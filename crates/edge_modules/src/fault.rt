//! Why bytes are no module that runs here.

use edge_imports::LinkRefusal;
use wasm_code::ReadFault;
use wasm_validate::ValidFault;

/// The first fault of the bytes, else of the module that they spell, else of its imports and exports. It is never want of
/// memory.
#[derive(Clone, Copy, Debug, PartialEq, Eq)]
pub enum ModuleFault {
    Read(ReadFault),
    Valid(ValidFault),
    Link(LinkRefusal),
}

/// Why there is no module: a fault, or memory ran out.
#[derive(Clone, Copy, Debug, PartialEq, Eq)]
pub enum Stopped {
    Fault(ModuleFault),
    OutOfMemory,
}
