//! Plays run files over the plain and the indexed cache and compares their journals, for `bench/both_caches.py`. The files
//! stand in standard input one after the other, each behind a line with `run`. It tells how many gave one journal, or the
//! number of the first that didn't.
#![tactic(auto)]

use cache_core::CoreCache;
use cache_plain::PlainCache;
use edge_top::journal_over;
use run_files::read_run;
use std::alloc::{AllocError, Global};
use std::io::{self, BufReader, Read, Write};
use std::process::ExitCode;

/// The greatest number of entries and live guests.
const MOST: u64 = 1_000;

/// What became of a text.
#[derive(Clone, Copy, Debug, PartialEq, Eq)]
enum Compared {
    Same,
    Different,
    NoRun,
}

/// The journals of the run that the bytes spell, over both caches.
fn compare_one(alloc: Global, bytes: &[u8]) -> Result<Compared, AllocError> {
    let Ok(run) = read_run(alloc, bytes) else {
        return Ok(Compared::NoRun);
    };
    let plain = journal_over(alloc, PlainCache::new(alloc, MOST), &run)?;
    let core = journal_over(alloc, CoreCache::new(alloc, MOST), &run)?;
    if plain == core {
        Ok(Compared::Same)
    } else {
        Ok(Compared::Different)
    }
}

/// How many of the texts were compared before the first that isn't the same, and what became of that one.
fn compare_all(alloc: Global, text: &str) -> Result<(usize, Compared), AllocError> {
    let mut same = 0;
    for run in text.split("run\n") {
        if run.is_empty() {
            continue;
        }
        let one = compare_one(alloc, run.as_bytes())?;
        if one != Compared::Same {
            return Ok((same, one));
        }
        same = usize::saturating_add(same, 1);
    }
    Ok((same, Compared::Same))
}

fn compare(rt: &HostRuntime) -> io::Result<ExitCode> {
    let alloc = rt.alloc();
    let mut text = String::new(alloc);
    BufReader::new(alloc, rt.reader())?.read_to_string(&mut text)?;
    let (same, last) = compare_all(alloc, text.as_str())?;
    match last {
        Compared::Same => {
            println!(rt; "{same} runs with one journal")?;
            Ok(ExitCode::SUCCESS)
        }
        Compared::Different => {
            println!(rt; "two journals after {same} runs with one")?;
            Ok(ExitCode::FAILURE)
        }
        Compared::NoRun => {
            println!(rt; "no run file after {same}")?;
            Ok(ExitCode::FAILURE)
        }
    }
}

fn main(rt: HostRuntime) -> io::Result<ExitCode> {
    compare(&rt)
}
