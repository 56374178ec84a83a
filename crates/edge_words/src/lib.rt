//! Texts of lines, and lines of words: each line ends with a line feed, and one space stands between two words.
//!
//! A text is spelled by a function of the value (`line_of`, `text_of`, `decimal`, `hex_word`), so each value has one
//! spelling. `Words` reads a line word by word, and its contracts say that it reads exactly these spellings. `Text`
//! writes them.
#![tactic(auto)]

mod choices;
mod cuts;
mod fault;
mod text;
mod word;
mod words;

pub use cuts::cut;
pub use fault::LineFault;
pub use text::Text;
pub use word::{read_hex, read_number, spell_hex};
pub use words::Words;
