//! Writes a text word by word.

ghost use Rattle.std.specs.Prelude.{◌≡◌, ◌++◌, ◌∷◌, [], IfOk, decimal};
ghost use Rattle.edge_words.specs.Words.{spaced, hex_word};

use crate::spell_hex;
use itoa::Buffer;
use std::alloc::{AllocError, Global};
use std::marker::Model;

/// A text that is being written. Each call uses it up and gives it back longer; it is gone where memory ran out.
#[derive(Drop)]
pub struct Text {
    bytes: Vec<u8>,
}

impl Model for Text {
    ghost use Rattle.std.specs.Prelude.{List, ℕ};

    ghost Value = { List ℕ };

    ghost view = { λ text. text.bytes.items };
}

impl Text {
    pub fn new(alloc: Global) -> Text
        ensures { result ≡ [] }
    {
        Text {
            bytes: Vec::new(alloc),
        }
    }

    /// These bytes at the end.
    pub fn plain(self, bytes: &[u8]) -> Result<Text, AllocError>
        ensures { IfOk result (λ text. text ≡ self ++ bytes.now) }
    {
        let Text { bytes: mut all } = self;
        all.extend_from_slice(bytes)?;
        Ok(Text { bytes: all })
    }

    /// A number as the first word of a line.
    pub fn first_number(self, number: u64) -> Result<Text, AllocError>
        ensures { IfOk result (λ text. text ≡ self ++ decimal number) }
    {
        self.plain(Buffer::new().format(number).as_bytes())
    }

    /// A further word of a line.
    pub fn word(self, word: &[u8]) -> Result<Text, AllocError>
        ensures { IfOk result (λ text. text ≡ self ++ spaced word.now) }
    {
        self.plain(b" ")?.plain(word)
    }

    /// A number as a further word.
    pub fn number(self, number: u64) -> Result<Text, AllocError>
        ensures { IfOk result (λ text. text ≡ self ++ spaced (decimal number)) }
    {
        self.word(Buffer::new().format(number).as_bytes())
    }

    /// Bytes in hexadecimal, with no space before them.
    pub fn first_hex(self, alloc: Global, bytes: &[u8]) -> Result<Text, AllocError>
        ensures { IfOk result (λ text. text ≡ self ++ hex_word bytes.now) }
    {
        let digits = spell_hex(alloc, bytes)?;
        self.plain(digits.as_bytes())
    }

    /// Bytes in hexadecimal as a further word.
    pub fn hex(self, alloc: Global, bytes: &[u8]) -> Result<Text, AllocError>
        ensures { IfOk result (λ text. text ≡ self ++ spaced (hex_word bytes.now)) }
    {
        self.plain(b" ")?.first_hex(alloc, bytes)
    }

    /// The end of a line.
    pub fn end_line(self) -> Result<Text, AllocError>
        ensures { IfOk result (λ text. text ≡ self ++ 10 ∷ []) }
    {
        self.plain(b"\n")
    }

    pub fn into_bytes(self) -> Vec<u8>
        ensures { result.items ≡ self }
    {
        let Text { bytes } = self;
        bytes
    }
}
