//! What calls one after another show of an object that tells its content.

ghost use Rattle.std.specs.Prelude.{◌≡◌, List, Some};
ghost use Rattle.edge_outside.specs.Files.{FilesContent, Read, IsRead, AnswersFrom, AreHeld};
ghost use Rattle.edge_outside.specs.Made.{Made};
ghost use Rattle.edge_outside.specs.Sink.{SinkContent, Write, IsWrite, Adds};

use crate::{Files, Sink};

/// Reads are answered from what the files hold, where that is told: bytes are those of the named file.
pub fn reads_are_shown<F: Files>()
    ensures { (before after : F) (calls : List Read) (held : FilesContent)
        → Made (IsRead F.reads F.content) before calls after → F.content before ≡ Some held
        → (then : FilesContent) × (Made AnswersFrom held calls then × (F.content after ≡ Some then) × AreHeld held.files calls) }
{}

/// Writes add to what the sink holds, where that is told.
pub fn writes_are_shown<K: Sink>()
    ensures { (before after : K) (calls : List Write) (held : SinkContent)
        → Made (IsWrite K.writes K.content) before calls after → K.content before ≡ Some held
        → (then : SinkContent) × (Made Adds held calls then × (K.content after ≡ Some then)) }
{}
