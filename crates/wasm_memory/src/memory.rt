//! A memory that grows.

ghost use Rattle.std.specs.Prelude.{◌≡◌, ◌+◌, ◌*◌, ◌^◌, ◌≤◌, ◌<◌, length, IsTrue, IfOk, OnOk, OnErr, MatchOption};
ghost use Rattle.std.specs.Borrow.{sem};
ghost use Rattle.wasm_memory.specs.Bytes.{bytes_at, number_of, bytes_of, written, is_access, is_inside};
ghost use Rattle.wasm_memory.specs.Linear.{blank, pages_of, grown, grown_from, with_bytes};
ghost use Rattle.wasm_memory.specs.Lending.{lends_part};

use crate::access::{read, write};
use std::alloc::{AllocError, Global};
use std::marker::Model;

/// Some of the bytes aren't there.
#[derive(Clone, Copy, Debug, PartialEq, Eq)]
pub struct OutOfBounds;

/// Contracts see the bytes, and the most pages.
#[derive(Drop)]
pub struct Memory {
    bytes: Vec<u8>,
    most: u32,
}

impl Model for Memory {
    ghost use Rattle.std.specs.Prelude.{◌≡◌, ◌≤◌, ◌*◌, ◌%◌, length};
    ghost use Rattle.wasm_memory.specs.Linear.{Linear};

    ghost Value = { Linear };

    ghost view = { λ m. record { bytes = m.bytes.items; most = m.most } };

    ghost invariant = { λ m. (length m.bytes.items % 65536 ≡ 0) × (length m.bytes.items ≤ 65536 * m.most) × (m.most ≤ 2048) };
}

impl Memory {
    /// A memory of zeros with the least pages, which may have the most.
    pub fn new(alloc: Global, least: u32, most: u32) -> Result<Memory, AllocError>
        requires order { least ≤ most }
        requires bound { most ≤ 2048 }
        ensures { IfOk result (λ m. m ≡ blank least most) }
    {
        let bytes = vec![in alloc; 0u8; 65536 * least as usize]?;
        Ok(Memory { bytes, most })
    }

    /// How many pages it has.
    pub fn pages(&self) -> u32
        ensures { result ≡ pages_of self.now }
    {
        (self.bytes.len() / 65536) as u32
    }

    /// Whether it has `size` bytes from `place` on.
    pub fn is_inside(&self, place: u64, size: u64) -> bool
        ensures { result ≡ is_inside self.now.bytes place size }
    {
        let len = self.bytes.len() as u64;
        size <= len && place <= len - size
    }

    /// The number in `size` bytes from `place` on, the lowest byte first.
    pub fn load(&self, place: u64, size: u32) -> Result<u64, OutOfBounds>
        requires { IsTrue (is_access size) }
        ensures inside { IfOk result (λ n. (place + size ≤ length self.now.bytes) × (n ≡ number_of (bytes_at self.now.bytes place size))) }
        ensures bound { IfOk result (λ n. n < 2 ^ (8 * size)) }
        ensures outside { OnErr result (length self.now.bytes < place + size) }
    {
        if !self.is_inside(place, u64::from(size)) {
            return Err(OutOfBounds);
        }
        Ok(read(self.bytes.as_slice(), place as usize, size))
    }

    /// The lowest `size` bytes of a number are written from `place` on, the lowest byte first.
    pub fn store(&mut self, place: u64, size: u32, value: u64) -> Result<(), OutOfBounds>
        requires { IsTrue (is_access size) }
        ensures inside { OnOk result ((place + size ≤ length self.old.bytes) × (self.new ≡ with_bytes self.old (written self.old.bytes place (bytes_of size value)))) }
        ensures outside { OnErr result ((length self.old.bytes < place + size) × (self.new ≡ self.old)) }
    {
        if !self.is_inside(place, u64::from(size)) {
            return Err(OutOfBounds);
        }
        write(self.bytes.as_mut_slice(), place as usize, size, value);
        Ok(())
    }

    /// More pages of zeros, where the sum doesn't exceed the most: the answer is how many pages it had.
    pub fn grow(&mut self, pages: u32) -> Result<Option<u32>, AllocError>
        ensures answer { IfOk result (λ answer. answer ≡ grown_from self.old pages) }
        ensures grown { OnOk result (self.new ≡ grown self.old pages) }
        ensures err { OnErr result (self.new ≡ self.old) }
    {
        let had = self.bytes.len() / 65536;
        if had + pages as usize <= self.most as usize {
            self.bytes
                .resize(self.bytes.len() + 65536 * pages as usize, 0)?;
            Ok(Some(had as u32))
        } else {
            Ok(None)
        }
    }

    /// `len` bytes from `place` on.
    pub fn part(&self, place: u32, len: u32) -> Option<&[u8]>
        ensures { MatchOption result (length self.now.bytes < place + len) (λ part. (place + len ≤ length self.now.bytes) × (part.now ≡ bytes_at self.now.bytes place len)) }
    {
        let at = place as usize;
        let end = at + len as usize;
        if end <= self.bytes.len() {
            Some(&self.bytes[at..end])
        } else {
            None
        }
    }

    /// `len` bytes from `place` on, to be written; the others stay as they are.
    pub fn part_mut(&mut self, place: u32, len: u32) -> &mut [u8]
        requires inside { place + len ≤ length self.old.bytes }
        ensures* writes_back { sem 𝓛 (lends_part self.entry place result) }
        ensures value { result.now ≡ bytes_at self.old.bytes place len }
    {
        self.run_mut(place as usize, len as usize)
    }

    fn run_mut(&mut self, at: usize, len: usize) -> &mut [u8]
        requires inside { at + len ≤ length self.old.bytes }
        ensures* writes_back { sem 𝓛 (lends_part self.entry at result) }
        ensures value { result.now ≡ bytes_at self.old.bytes at len }
    {
        self.bytes.slice_mut(at..at + len)
    }

    /// These bytes are written from `place` on.
    #[tactic(auto, using(crate::proofs::Writes::part_fits))]
    pub fn put(&mut self, place: u32, bytes: &[u8]) -> Result<(), OutOfBounds>
        ensures inside { OnOk result ((place + length bytes.now ≤ length self.old.bytes) × (self.new ≡ with_bytes self.old (written self.old.bytes place bytes.now))) }
        ensures outside { OnErr result ((length self.old.bytes < place + length bytes.now) × (self.new ≡ self.old)) }
    {
        if !self.is_inside(u64::from(place), bytes.len() as u64) {
            return Err(OutOfBounds);
        }
        self.run_mut(place as usize, bytes.len())
            .copy_from_slice(bytes);
        Ok(())
    }
}
