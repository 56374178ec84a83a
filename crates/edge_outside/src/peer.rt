//! A connection: a source and a sink at once.
ghost use Rattle.std.specs.Prelude.{◌≡◌, ℕ, List, Bool, true, Option, Result};
ghost use Rattle.std.specs.Option.{option_map};
ghost use Rattle.edge_outside.specs.declared.fault.Failed.{Failed};
ghost use Rattle.edge_outside.specs.Peer.{StaysAsItWas};

use crate::{Sink, Source};

/// A connection. A read leaves what it tells as a sink, and a write what it tells as a source.
pub trait Peer: Source + Sink {
    /// It was ended: the connection before and after.
    ghost ends: { Self → Self → Type 0 };

    /// Whether it was ended, where that is told.
    ghost ended: { Self → Option Bool };

    /// Ends the connection for the other side. It has no fault, and takes no memory.
    fn end(&mut self)
        ensures call { ends self.old self.new }
        ensures source { StaysAsItWas (Self.Source.content self.old) (Self.Source.faults self.old) (Self.Source.content self.new) (Self.Source.faults self.new) }
        ensures sink { StaysAsItWas (Self.Sink.content self.old) (Self.Sink.faults self.old) (Self.Sink.content self.new) (Self.Sink.faults self.new) }
        ensures ended { ended self.new ≡ option_map (λ _. true) (ended self.old) };

    /// A read leaves what the sink tells, with its count, and doesn't end the connection.
    ghost read_leaves: { (s : Self) (room : ℕ) (answer : Result (List ℕ) Failed) (t : Self) → Self.reads s room answer t → StaysAsItWas (Self.Sink.content s) (Self.Sink.faults s) (Self.Sink.content t) (Self.Sink.faults t) × (ended t ≡ ended s) };

    /// A write leaves what the source tells, with its count, and doesn't end the connection.
    ghost write_leaves: { (s : Self) (piece : List ℕ) (answer : Result (Unit {0}) Failed) (t : Self) → Self.writes s piece answer t → StaysAsItWas (Self.Source.content s) (Self.Source.faults s) (Self.Source.content t) (Self.Source.faults t) × (ended t ≡ ended s) };
}
