//! What follows from what a command did: what its sink holds then, and that commands that read and write once are those
//! of several files and of a text in parts with one of each.

ghost use Rattle.std.specs.Prelude.{◌≡◌, ◌∷◌, ℕ, List, [], Some, Ok};
ghost use Rattle.edge_outside.specs.Files.{Read};
ghost use Rattle.edge_outside.specs.Made.{Made};
ghost use Rattle.edge_outside.specs.Sink.{SinkContent, Write, IsWrite};
ghost use Rattle.edge_top.specs.declared.exit.Exit.{Exit};
ghost use Rattle.edge_top.specs.Does.{ReadsOne, Writes};
ghost use Rattle.edge_top.specs.Parts.{Parts, Added};
ghost use Rattle.edge_top.specs.Script.{Scripts};
ghost use Rattle.edge_top.specs.Several.{ReadsThen, OnOne};
ghost use Rattle.edge_top.specs.Worked.{Worked};

use edge_outside::Sink;

/// Where the sink tells what it holds, a command that ended with Ok has added its text, and one whose write failed a
/// prefix of it.
pub fn text_is_added<K: Sink>()
    ensures { (before after : K) (text : List ℕ) (writes : List Write) (ended : Exit) (held : SinkContent)
        → Made (IsWrite K.writes K.content) before writes after → Parts text writes ended → K.content before ≡ Some held
        → (then : SinkContent) × ((K.content after ≡ Some then) × Added ended text held.bytes then.bytes) }
{}

/// A text that is written at once is one in one part.
pub fn one_write_is_one_part()
    ensures { (text : List ℕ) (writes : List Write) (ended : Exit) → Writes (Ok text) writes ended → Parts text writes ended }
{}

/// A command of one file is one of several.
pub fn one_file_is_several()
    ensures { (name : List ℕ) (reads : List Read) (worked : Worked)
        → ReadsOne name Scripts reads worked → ReadsThen (name ∷ []) (OnOne Scripts) reads worked }
{}
