//! A connection in memory: a source, a sink, and whether it was ended.
ghost use Rattle.std.specs.Prelude.{◌≡◌, true, false, Some};
ghost use Rattle.edge_outside.specs.Peer.{ReadsConn, WritesConn, StaysAsItWas};

use crate::{Failed, MemSink, MemSource, Peer, Sink, Source};
use std::marker::Model;

/// A connection in memory.
#[derive(Drop)]
pub struct MemConn {
    source: MemSource,
    sink: MemSink,
    ended: bool,
}

impl Model for MemConn {
    ghost use Rattle.edge_outside.specs.Peer.{ConnInMemory};

    ghost Value = { ConnInMemory };

    ghost view = { λ c. record { source = c.source; sink = c.sink; ended = c.ended } };
}

impl MemConn {
    /// Gives what the source gives, and takes what the sink takes.
    pub fn new(source: MemSource, sink: MemSink) -> Self
        ensures source { result.source ≡ source }
        ensures sink { result.sink ≡ sink }
        ensures open { result.ended ≡ false }
    {
        MemConn {
            source,
            sink,
            ended: false,
        }
    }

    /// What was written to it.
    pub fn sink(&self) -> &MemSink
        ensures { result.now ≡ self.now.sink }
    {
        &self.sink
    }

    /// Whether it was ended.
    pub fn is_ended(&self) -> bool
        ensures { result ≡ self.now.ended }
    {
        self.ended
    }
}

impl Source for MemConn {
    ghost reads = { ReadsConn };

    ghost faults = { λ c. c.source.faults };

    ghost content = { λ c. Some c.source.content };

    fn read(&mut self, into: &mut [u8]) -> Result<usize, Failed> {
        self.source.read(into)
    }
}

impl Sink for MemConn {
    ghost writes = { WritesConn };

    ghost faults = { λ c. c.sink.faults };

    ghost content = { λ c. Some c.sink.content };

    fn write(&mut self, bytes: &[u8]) -> Result<(), Failed> {
        self.sink.write(bytes)
    }
}

impl Peer for MemConn {
    ghost use Rattle.std.proofs.Common.{ap};

    ghost ends = { λ before after. after ≡ record before { ended = true } };

    ghost ended = { λ c. Some c.ended };

    ghost read_leaves = { λ s room answer t call. (record { same_content = ap (λ k. Some k.content) call.sink; same_faults = ap (λ k. k.faults) call.sink }, ap Some call.ended) };

    ghost write_leaves = { λ s piece answer t call. (record { same_content = ap (λ k. Some k.content) call.source; same_faults = ap (λ k. k.faults) call.source }, ap Some call.ended) };

    fn end(&mut self) {
        self.ended = true;
    }
}
