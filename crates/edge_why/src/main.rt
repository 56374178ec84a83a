//! The program `edge_why`: says in plain words why `edge` refused a run file, a play file or a module, and draws what a
//! run did.
//!
//! It decides nothing: run files, play files, journals and modules are read by the libraries that `edge` stands on, a run is
//! played by the very call that `edge` makes, and a guest's answer is the function of its block that the contracts speak of.
#![tactic(auto)]

mod answers;
mod deeds;
mod file;
mod lanes;
mod links;
mod modules;
mod notes;
mod played;
mod reasons;
mod scene;
mod sent;
mod svg;

use crate::answers::{Command, answer, command_of, of_two};
use crate::file::read_file;
use crate::sent::draw_answers;
use std::alloc::AllocError;
use std::process::ExitCode;
use std::{env, io};

const USAGE: &str =
    "usage: edge why script RUN | play RUN | check MODULE | draw RUN [--svg] | answers PLAY JOURNAL";

/// The words behind the program's name.
fn words(rt: &HostRuntime) -> io::Result<Vec<String>> {
    let mut words = Vec::new(rt.alloc());
    for word in env::args(rt)?.skip(1) {
        words.push(word)?;
    }
    Ok(words)
}

/// Says something on standard error, and gives the status.
fn fails(rt: &HostRuntime, status: u8, text: &str) -> ExitCode {
    let _ = eprintln!(rt; "{text}");
    ExitCode::from(status)
}

/// A file's bytes, or the status after saying why they can't be had.
fn bytes_of(rt: &HostRuntime, name: &str, most: usize) -> Result<Vec<u8>, ExitCode> {
    match read_file(rt, name, most) {
        Ok(bytes) => Ok(bytes),
        Err(error) => {
            let _ = eprintln!(rt; "{name}: {error}");
            Err(ExitCode::from(6))
        }
    }
}

/// Writes what was made, if it was.
fn tell(rt: &HostRuntime, out: &String, made: Result<(), AllocError>) -> ExitCode {
    if made.is_err() {
        return fails(rt, 9, "out of memory");
    }
    match print!(rt; "{out}") {
        Ok(()) => ExitCode::SUCCESS,
        Err(_) => fails(rt, 7, "write fault"),
    }
}

/// Reads the file and answers.
fn run(rt: &HostRuntime, command: Command, name: &str) -> ExitCode {
    let bytes = match bytes_of(rt, name, command.most_bytes()) {
        Ok(bytes) => bytes,
        Err(status) => return status,
    };
    let mut out = String::new(rt.alloc());
    let made = answer(&mut out, command, bytes.as_slice());
    tell(rt, &out, made)
}

/// Reads both files and shows the answers of the guests.
fn run_answers(rt: &HostRuntime, play: &str, journal: &str) -> ExitCode {
    let play = match bytes_of(rt, play, 67_108_864) {
        Ok(bytes) => bytes,
        Err(status) => return status,
    };
    let journal = match bytes_of(rt, journal, 1_073_741_824) {
        Ok(bytes) => bytes,
        Err(status) => return status,
    };
    let mut out = String::new(rt.alloc());
    let made = draw_answers(&mut out, play.as_slice(), journal.as_slice());
    tell(rt, &out, made)
}

fn main(rt: HostRuntime) -> ExitCode {
    let Ok(words) = words(&rt) else {
        return fails(&rt, 2, USAGE);
    };
    if let Some((play, journal)) = of_two(words.as_slice()) {
        return run_answers(&rt, play, journal);
    }
    match command_of(words.as_slice()) {
        Some((command, name)) => run(&rt, command, name),
        None => fails(&rt, 2, USAGE),
    }
}
