//! A text that is read as a connection is.

ghost use Rattle.std.specs.Prelude.{◌≡◌, Some};

use edge_outside::{Failed, Source};
use std::marker::Model;

/// What is left of a text, and how many reads were made. It never fails.
#[derive(Drop)]
pub struct TextSource<'a> {
    rest: &'a [u8],
    made: u64,
}

impl<'a> Model for TextSource<'a> {
    ghost use Rattle.std.specs.Prelude.{[]};
    ghost use Rattle.edge_outside.specs.Source.{SourceContent};
    ghost use Rattle.play_files.specs.Whole.{most_read};

    ghost Value = { SourceContent };

    ghost view = { λ s. record { bytes = s.rest.now; most = most_read; calls = record { fails = []; made = s.made } } };
}

impl<'a> TextSource<'a> {
    pub fn of(text: &'a [u8]) -> TextSource<'a>
        ensures { result.bytes ≡ text.now }
    {
        TextSource {
            rest: text,
            made: 0,
        }
    }
}

impl<'a> Source for TextSource<'a> {
    ghost reads = { λ before room answer after. Unit {0} };

    ghost faults = { λ s. 0 };

    ghost content = { λ s. Some s };

    fn read(&mut self, into: &mut [u8]) -> Result<usize, Failed> {
        let rest = self.rest;
        let count = into.len().min(rest.len());
        into[..count].copy_from_slice(&rest[..count]);
        self.rest = &rest[count..];
        self.made = self.made.saturating_add(1);
        Ok(count)
    }
}
