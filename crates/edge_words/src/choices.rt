//! Words that say one of a few things.

ghost use Rattle.std.specs.Prelude.{◌≡◌};
ghost use Rattle.edge_words.specs.Reading.{Gives, one};
ghost use Rattle.edge_words.specs.Choices.{alone, exactly, number_or};

use crate::{LineFault, Words, read_number};

fn read_number_or(name: &[u8], word: &[u8]) -> Option<Option<u64>>
    ensures { result ≡ number_or name.now word.now }
{
    if word == name {
        return Some(None);
    }
    read_number(word).map(Some)
}

impl<'a> Words<'a> {
    /// This value, where no word is left.
    pub fn alone<T: Drop>(self, value: T) -> Result<T, LineFault>
        ensures { Gives (λ read. read) result (alone value self.entry) }
    {
        self.end()?;
        Ok(value)
    }

    /// The next word is this one.
    pub fn exactly(self, name: &[u8]) -> Result<Words<'a>, LineFault>
        ensures { Gives (λ words. (tt, words)) result (one (exactly name.now) self.entry) }
    {
        let (word, words) = self.word()?;
        if word == name {
            Ok(words)
        } else {
            Err(LineFault::Bad)
        }
    }

    /// The next word as a number, or as this word in its place.
    pub fn number_or(self, name: &[u8]) -> Result<(Option<u64>, Words<'a>), LineFault>
        ensures { Gives (λ read. read) result (one (number_or name.now) self.entry) }
    {
        let (word, words) = self.word()?;
        match read_number_or(name, word) {
            Some(number) => Ok((number, words)),
            None => Err(LineFault::Bad),
        }
    }
}
