//! A source of two pieces, each given by one read where there is room for it. It never fails, and tells no content.
ghost use Rattle.std.specs.Prelude.{None, IsOk};

use edge_outside::{Failed, Source};

/// Two pieces. The first isn't empty, or a read would tell the end before the second.
#[derive(Drop)]
pub struct Pieces {
    /// What is left of the piece that is being read.
    pub first: &'static [u8],
    /// The piece after it.
    pub then: &'static [u8],
    /// How many reads there were.
    pub reads: u64,
}

impl Source for Pieces {
    ghost reads = { λ _ _ answer _. IsOk answer };

    ghost faults = { λ _. 0 };

    ghost content = { λ _. None };

    fn read(&mut self, into: &mut [u8]) -> Result<usize, Failed> {
        self.reads = self.reads.saturating_add(1);
        let first = self.first;
        let count = first.len().min(into.len());
        into[..count].copy_from_slice(&first[..count]);
        self.first = &first[count..];
        if count == first.len() {
            self.first = self.then;
            self.then = &[];
        }
        Ok(count)
    }
}
