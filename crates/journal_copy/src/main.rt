//! Reads a journal from standard input and writes it again, for `bench/journal.py`. Where the text is no journal it tells
//! the first bad line on standard error.
#![tactic(auto)]

use edge_journal::{RunFault, journal_text, read_journal};
use std::io::{self, BufReader, Read, Write};
use std::process::ExitCode;

fn copy(rt: &HostRuntime) -> io::Result<ExitCode> {
    let alloc = rt.alloc();
    let mut bytes = Vec::new(alloc);
    BufReader::new(alloc, rt.reader())?.read_to_end(&mut bytes)?;
    match read_journal(alloc, &bytes) {
        Ok(journal) => {
            let text = journal_text(alloc, &journal.history, journal.guests.items())?;
            io::writer(rt).write_all(text.bytes())?;
            Ok(ExitCode::SUCCESS)
        }
        Err(RunFault::Line(line)) => {
            eprintln!(rt; "journal: line {line}")?;
            Ok(ExitCode::FAILURE)
        }
        Err(RunFault::OutOfMemory) => {
            eprintln!(rt; "memory")?;
            Ok(ExitCode::FAILURE)
        }
    }
}

fn main(rt: HostRuntime) -> io::Result<ExitCode> {
    copy(&rt)
}
