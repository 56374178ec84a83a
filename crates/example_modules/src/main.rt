//! Writes one of the example modules to standard output, for `examples/make.sh`.
#![tactic(auto)]

mod guests;

use crate::guests::{hello, smallest};
use std::alloc::Global;
use std::env;
use std::io::{self, Write};
use std::process::ExitCode;
use wasm_types::Module;
use wasm_writer::write_module;

fn named(alloc: Global, name: &str) -> io::Result<Option<Module>> {
    match name {
        "smallest" => Ok(Some(smallest(alloc)?)),
        "hello" => Ok(Some(hello(alloc)?)),
        _ => Ok(None),
    }
}

fn main(rt: HostRuntime) -> io::Result<ExitCode> {
    let name = env::args(&rt)?.nth(1);
    let module = match &name {
        Some(name) => named(rt.alloc(), name.as_str())?,
        None => None,
    };
    match module {
        Some(module) => {
            let bytes = write_module(rt.alloc(), &module)?;
            io::writer(&rt).write_all(&bytes)?;
            Ok(ExitCode::SUCCESS)
        }
        None => {
            eprintln!(rt; "usage: example_modules smallest | hello")?;
            Ok(ExitCode::from(2))
        }
    }
}

#[cfg(test)]
mod tests;
