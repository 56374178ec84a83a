//! Where connections come from.
ghost use Rattle.std.specs.Prelude.{◌≡◌, ℕ, Option, Result, IsErrOf};
ghost use Rattle.edge_outside.specs.declared.fault.IoFault.{IoFault};
ghost use Rattle.edge_outside.specs.Faults.{Counts};
ghost use Rattle.edge_outside.specs.Listener.{ListenerContent, AcceptsWhereTold, PutsBackWhereTold};

use crate::{IoFault, Peer};
use std::alloc::Global;

/// Gives connections, one after another.
pub trait Listener {
    type Conn: Peer + Send;

    /// An accept was made: the listener before it, the answer and the listener after it.
    ghost accepts: { Self → Result (Option Self.Conn) IoFault → Self → Type 0 };

    /// A connection was given back: the listener before it, its index, the connection and the listener after it.
    ghost puts_back: { Self → ℕ → Self.Conn → Self → Type 0 };

    /// How many faults there were.
    ghost faults: { Self → ℕ };

    /// The places with their connections, and how many were given, where that is told.
    ghost content: { Self → Option (ListenerContent Self.Conn) };

    /// The next connection; None where no more come.
    fn accept(&mut self, alloc: Global) -> Result<Option<Self::Conn>, IoFault>
        ensures call { accepts self.old result self.new }
        ensures faults { Counts (IsErrOf result IoFault.Failed) (faults self.old) (faults self.new) }
        ensures content { AcceptsWhereTold (content self.old) result (content self.new) };

    /// Takes a connection back, with its index, counted from 1 over all that it gave. It has no fault, and takes no memory.
    fn give_back(&mut self, index: u64, conn: Self::Conn)
        ensures call { puts_back self.old index conn self.new }
        ensures faults { faults self.new ≡ faults self.old }
        ensures content { PutsBackWhereTold (content self.old) index conn (content self.new) };
}
