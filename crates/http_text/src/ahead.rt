//! Bytes that were read of a source and aren't used yet.
ghost use Rattle.std.specs.Prelude.{◌≡◌, ◌==◌, ◌<◌, ◌≤◌, ◌+◌, ◌++◌, ℕ, List, [], length, take, drop, OnOk, OnErr, IsErrOf, Ok, Err};
ghost use Rattle.std.specs.List.{list_any};
ghost use Rattle.edge_outside.specs.Reads.{OneRead, failed};
ghost use Rattle.http_text.specs.Lines.{is_line_feed};

use crate::NoBytes;
use crate::chunks::after;
use edge_outside::Source;
use std::alloc::{AllocError, Global};
use std::marker::Model;

/// Bytes that were read and aren't used yet.
#[derive(Drop)]
pub struct Ahead {
    bytes: Vec<u8>,
    used: usize,
}

impl Model for Ahead {
    ghost use Rattle.std.specs.Prelude.{List, ℕ, length, drop, ◌≤◌};

    ghost Value = { List ℕ };

    ghost view = { λ ahead. drop ahead.used ahead.bytes.items };

    ghost invariant = { λ ahead. ahead.used ≤ length ahead.bytes.items };
}

/// How many bytes one read asks for at most.
pub const PIECE: usize = 4096;

impl Ahead {
    /// Nothing was read.
    pub fn new(alloc: Global) -> Ahead
        ensures { result ≡ [] }
    {
        Ahead {
            bytes: Vec::new(alloc),
            used: 0,
        }
    }

    /// The bytes that aren't used yet.
    pub fn bytes(&self) -> &[u8]
        ensures { result.now ≡ self.now }
    {
        &self.bytes[self.used..]
    }

    /// Uses the first bytes.
    pub fn pass(&mut self, count: usize)
        requires { count ≤ length self.old }
        ensures { self.new ≡ drop count self.old }
    {
        self.used += count;
    }

    /// One read, which gives one byte more at least, and `most` at most. Where memory ran out behind it, its bytes are
    /// lost.
    pub fn fill<S: Source>(&mut self, source: &mut S, most: usize) -> Result<(), NoBytes>
        requires { 0 < most }
        ensures grows { OnOk result (length self.old < length self.new) }
        ensures kept { OnOk result (take (length self.old) self.new ≡ self.old) }
        ensures most { length self.new ≤ length self.old + most }
        ensures same { OnErr result (self.new ≡ self.old) }
        ensures piece { OnOk result (OneRead S.reads S.faults S.content source.old (Ok (drop (length self.old) self.new)) source.new) }
        ensures ended { IsErrOf result NoBytes.Ended → OneRead S.reads S.faults S.content source.old (Ok []) source.new }
        ensures failed { IsErrOf result NoBytes.Failed → OneRead S.reads S.faults S.content source.old (Err failed) source.new }
        ensures memory { IsErrOf result NoBytes.OutOfMemory
            → (piece : List ℕ) × (0 < length piece) × OneRead S.reads S.faults S.content source.old (Ok piece) source.new }
    {
        let mut piece = [0u8; PIECE];
        let room = most.min(PIECE);
        let Ok(count) = source.read(&mut piece[..room]) else {
            return Err(NoBytes::Failed);
        };
        if count == 0 {
            return Err(NoBytes::Ended);
        }
        if self.add(&piece[..count]).is_err() {
            return Err(NoBytes::OutOfMemory);
        }
        Ok(())
    }

    /// More bytes at the end. The used ones are let go.
    fn add(&mut self, piece: &[u8]) -> Result<(), AllocError>
        ensures ok { OnOk result (self.new ≡ self.old ++ piece.now) }
        ensures err { OnErr result (self.new ≡ self.old) }
    {
        self.bytes.drain(..self.used);
        self.used = 0;
        self.bytes.extend_from_slice(piece)?;
        Ok(())
    }
}

/// Some byte from this place on ends a line.
pub fn has_line_feed(bytes: &[u8], from: usize) -> bool
    requires { from ≤ length bytes.now }
    ensures { result ≡ list_any is_line_feed (drop from bytes.now) }
{
    any_line_feed(after(bytes, from))
}

fn any_line_feed(bytes: &[u8]) -> bool
    ensures { result ≡ list_any is_line_feed bytes.now }
{
    bytes.iter().any(|byte| *byte == b'\n')
}
