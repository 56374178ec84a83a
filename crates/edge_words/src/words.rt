//! Reads a line word by word.

ghost use Rattle.std.specs.Prelude.{◌≡◌, ◌≤◌, IfOk};
ghost use Rattle.std.specs.Option.{option_map};
ghost use Rattle.edge_words.specs.Words.{line_of};
ghost use Rattle.edge_words.specs.Reading.{Gives, one, optional, as_word, at_end, number_in, number_from_to, hex_in, prefixed, words_in};
ghost use Rattle.edge_words.specs.Choices.{no_words};

use crate::{LineFault, cut, read_hex, read_number};
use std::alloc::Global;
use std::marker::Model;

/// The words of a line that are not read yet. A word is read by the call that uses this value up.
#[derive(Drop)]
pub struct Words<'a> {
    rest: Option<&'a [u8]>,
}

impl<'a> Model for Words<'a> {
    ghost use Rattle.std.specs.Prelude.{List, ℕ};
    ghost use Rattle.edge_words.specs.Reading.{words_left};

    ghost Value = { List (List ℕ) };

    ghost view = { λ words. words_left words.rest };
}

impl<'a> Words<'a> {
    /// The words of a line. An empty line is one empty word.
    pub fn of(line: &'a [u8]) -> Words<'a>
        ensures words { result ≡ words_in line.now }
        ensures spelled { line_of result ≡ line.now }
    {
        Words { rest: Some(line) }
    }

    /// The next word, and the words after it.
    pub fn word(self) -> Result<(&'a [u8], Words<'a>), LineFault>
        ensures { Gives (λ read. (read.0.now, read.1)) result (one as_word self.entry) }
    {
        let Some(rest) = self.rest else {
            return Err(LineFault::Bad);
        };
        match cut(rest, b' ') {
            Some((word, after)) => Ok((word, Words { rest: Some(after) })),
            None => Ok((rest, Words { rest: None })),
        }
    }

    /// The next word as a number.
    pub fn number(self) -> Result<(u64, Words<'a>), LineFault>
        ensures { Gives (λ read. read) result (one number_in self.entry) }
    {
        let (word, words) = self.word()?;
        match read_number(word) {
            Some(number) => Ok((number, words)),
            None => Err(LineFault::Bad),
        }
    }

    /// The next word as a number from the least to the most.
    pub fn number_from_to(self, least: u64, most: u64) -> Result<(u64, Words<'a>), LineFault>
        ensures read { Gives (λ read. read) result (one (number_from_to least most) self.entry) }
        ensures within { IfOk result (λ read. read.0 ≤ most) }
    {
        let (number, words) = self.number()?;
        if least <= number && number <= most {
            Ok((number, words))
        } else {
            Err(LineFault::Bad)
        }
    }

    /// The next word as this prefix and a number.
    pub fn prefixed_number(self, prefix: &[u8]) -> Result<(u64, Words<'a>), LineFault>
        ensures { Gives (λ read. read) result (one (prefixed prefix.now number_in) self.entry) }
    {
        let (word, words) = self.word()?;
        match word.strip_prefix(prefix) {
            Some(digits) => match read_number(digits) {
                Some(number) => Ok((number, words)),
                None => Err(LineFault::Bad),
            },
            None => Err(LineFault::Bad),
        }
    }

    /// The next word as bytes in hexadecimal.
    pub fn hex(self, alloc: Global) -> Result<(Vec<u8>, Words<'a>), LineFault>
        ensures { Gives (λ read. (read.0.items, read.1)) result (one hex_in self.entry) }
    {
        let (word, words) = self.word()?;
        let bytes = read_hex(alloc, word)?;
        Ok((bytes, words))
    }

    /// Whether no word is left.
    pub fn is_empty(&self) -> bool
        ensures { result ≡ no_words self.now }
    {
        match self.rest {
            Some(_) => false,
            None => true,
        }
    }

    /// What stands after the prefix in the next word, where that begins so, and the words after it. Any other word is
    /// not read.
    pub fn optional(self, prefix: &[u8]) -> (Option<&'a [u8]>, Words<'a>)
        ensures { (option_map (λ text. text.now) result.0, result.1) ≡ optional prefix.now self.entry }
    {
        let Some(line) = self.rest else {
            return (None, Words { rest: None });
        };
        let (word, rest) = match cut(line, b' ') {
            Some((word, after)) => (word, Some(after)),
            None => (line, None),
        };
        match word.strip_prefix(prefix) {
            Some(text) => (Some(text), Words { rest }),
            None => (None, Words { rest: Some(line) }),
        }
    }

    /// No word is left.
    pub fn end(self) -> Result<(), LineFault>
        ensures { Gives (λ read. read) result (at_end self.entry) }
    {
        match self.rest {
            Some(_) => Err(LineFault::Bad),
            None => Ok(()),
        }
    }
}
