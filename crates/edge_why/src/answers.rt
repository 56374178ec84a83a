//! What each command answers to the bytes of its file.

use crate::lanes::draw_lanes;
use crate::modules::module_hint;
use crate::notes::run_notes;
use crate::played::{Played, play};
use crate::scene::scene_of;
use crate::svg::draw_svg;
use play_files::{PlayFile, read_play};
use run_files::{RunFault, read_run};
use std::alloc::AllocError;
use std::fmt::Write;
use why_texts::{play_hint, run_hint};

#[derive(Clone, Copy, PartialEq, Eq)]
pub enum Command {
    Script,
    Play,
    Check,
    Draw,
    DrawSvg,
}

impl Command {
    /// How much of its file is read: a byte more than the limit is enough to see that it is exceeded.
    pub fn most_bytes(self) -> usize {
        match self {
            Command::Check => 16_777_216,
            _ => 67_108_864,
        }
    }
}

/// The command that the words say, and the name of its file.
pub fn command_of(words: &[String]) -> Option<(Command, &str)> {
    match words {
        [word, name] => match word.as_str() {
            "script" => Some((Command::Script, name.as_str())),
            "play" => Some((Command::Play, name.as_str())),
            "check" => Some((Command::Check, name.as_str())),
            "draw" => Some((Command::Draw, name.as_str())),
            _ => None,
        },
        [word, name, option] => {
            if word.as_str() == "draw" && option.as_str() == "--svg" {
                Some((Command::DrawSvg, name.as_str()))
            } else {
                None
            }
        }
        _ => None,
    }
}

/// The play file and the journal of the words `answers PLAY JOURNAL`.
pub fn of_two(words: &[String]) -> Option<(&str, &str)> {
    match words {
        [word, play, journal] if word.as_str() == "answers" => {
            Some((play.as_str(), journal.as_str()))
        }
        _ => None,
    }
}

/// A run that was played, as the command wants it.
fn played_answer(
    out: &mut String,
    command: Command,
    bytes: &[u8],
    played: &Played,
) -> Result<(), AllocError> {
    if command == Command::Script {
        return run_notes(out, bytes, played);
    }
    let scene = scene_of(*out.allocator(), played)?;
    if command == Command::DrawSvg {
        draw_svg(out, &scene)
    } else {
        draw_lanes(out, &scene)
    }
}

/// The answer to a run file.
fn run_answer(out: &mut String, command: Command, bytes: &[u8]) -> Result<(), AllocError> {
    match read_run(*out.allocator(), bytes) {
        Err(RunFault::OutOfMemory) => Err(AllocError),
        Err(RunFault::Line(line)) => {
            run_hint(out, bytes, line as usize)?;
            out.push('\n')
        }
        Ok(run) => match play(*out.allocator(), bytes, run)? {
            None => Err(AllocError),
            Some(played) => played_answer(out, command, bytes, &played),
        },
    }
}

/// What a good play file has; what its guests do only a module says.
fn play_notes(out: &mut String, file: &PlayFile) -> Result<(), AllocError> {
    let guests = file.requests.items().len();
    let steps = file.steps.items().len();
    write!(
        out,
        "a good play file: nothing stands in its way; requests {guests}, steps {steps}\n"
    )
}

/// The answer to a play file.
fn play_answer(out: &mut String, bytes: &[u8]) -> Result<(), AllocError> {
    match read_play(*out.allocator(), bytes) {
        Err(RunFault::OutOfMemory) => Err(AllocError),
        Err(RunFault::Line(line)) => {
            play_hint(out, bytes, line as usize)?;
            out.push('\n')
        }
        Ok(file) => play_notes(out, &file),
    }
}

/// The answer to a module.
fn module_answer(out: &mut String, bytes: &[u8]) -> Result<(), AllocError> {
    if !module_hint(out, bytes)? {
        return out.push_str("a good module: nothing stands in its way\n");
    }
    if !out.as_bytes().ends_with(b"\n") {
        out.push('\n')?;
    }
    Ok(())
}

/// The answer of a command to the bytes of its file.
pub fn answer(out: &mut String, command: Command, bytes: &[u8]) -> Result<(), AllocError> {
    match command {
        Command::Check => module_answer(out, bytes),
        Command::Play => play_answer(out, bytes),
        _ => run_answer(out, command, bytes),
    }
}
