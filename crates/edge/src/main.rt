//! The program `edge`: the words, the files and standard output of the process, handed to `host`.
#![tactic(auto)]

mod disk;
mod output;
#[cfg(test)]
mod tests;

ghost use Rattle.std.specs.Prelude.{◌≡◌, ◌≢◌};
ghost use Rattle.std.specs.IoError.{error_kind};
ghost use Rattle.std.specs.Process.{exit_status};
ghost use Rattle.edge_top.specs.Exit.{status_of};

use crate::disk::Disk;
use crate::output::Output;
use edge_outside::NoLink;
use edge_top::{Exit, host};
use std::env;
use std::io::{self, ErrorKind};
use std::process::ExitCode;

/// The words behind the program's name.
fn words(rt: &HostRuntime) -> io::Result<Vec<String>> {
    let mut words = Vec::new(rt.alloc());
    for word in env::args(rt)?.skip(1) {
        words.push(word)?;
    }
    Ok(words)
}

/// How the program ends where the words can't be had: one of them isn't text, or there was no memory.
fn without_words(error: &io::Error) -> Exit
    ensures memory { error_kind error.now ≡ ErrorKind.OutOfMemory → result ≡ Exit.OutOfMemory }
    ensures usage { error_kind error.now ≢ ErrorKind.OutOfMemory → result ≡ Exit.Usage }
{
    match error.kind() {
        ErrorKind::OutOfMemory => Exit::OutOfMemory,
        _ => Exit::Usage,
    }
}

/// Does what the words of the process say.
fn run(rt: &HostRuntime) -> Exit {
    let words = match words(rt) {
        Ok(words) => words,
        Err(error) => return without_words(&error),
    };
    let mut files = Disk::new(rt);
    let mut out = Output::new(io::writer(rt));
    host(
        rt.alloc(),
        words.as_slice(),
        &mut files,
        &mut out,
        &mut NoLink::new(),
    )
}

/// Tells on standard error how the command ended, where memory is found for the text.
fn tell(rt: &HostRuntime, exit: Exit) {
    if let Ok(text) = exit.text(rt.alloc()) {
        if !text.is_empty() {
            let _ = eprintln!(rt; "{text}");
        }
    }
}

/// The exit status of the process.
fn code_of(exit: Exit) -> ExitCode
    ensures { exit_status result ≡ status_of exit }
{
    ExitCode::from(exit.status())
}

fn main(rt: HostRuntime) -> ExitCode {
    let exit = run(&rt);
    tell(&rt, exit);
    code_of(exit)
}
