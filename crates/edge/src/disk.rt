//! The files of the machine.

ghost use Rattle.std.specs.Prelude.{None};

use edge_outside::{Files, IoFault};
use std::alloc::Global;
use std::fs;
use std::io::Read;

/// The greatest size of a file in bytes; a longer one is a fault.
const MOST_BYTES: usize = 1_073_741_824;

/// The files of the machine. What they hold is told by no clause.
#[derive(Drop)]
pub struct Disk<'a> {
    rt: &'a HostRuntime,
    faults: u64,
}

impl<'a> Disk<'a> {
    pub fn new(rt: &'a HostRuntime) -> Disk<'a> {
        Disk { rt, faults: 0 }
    }
}

/// The bytes that a reader has left up to its end, where they are no more than this.
pub fn read_whole<R: Read>(alloc: Global, reader: &mut R, most: usize) -> Result<Vec<u8>, IoFault> {
    let mut bytes = Vec::new(alloc);
    let mut buffer = [0u8; 4096];
    for _ in 0..u64::MAX {
        let Ok(count) = reader.read(&mut buffer) else {
            return Err(IoFault::Failed);
        };
        if count == 0 {
            return Ok(bytes);
        }
        if count > most - bytes.len().min(most) {
            return Err(IoFault::Failed);
        }
        bytes.extend_from_slice(&buffer[..count])?;
    }
    Err(IoFault::Failed)
}

// The bytes of the file with this name.
fn read_named(alloc: Global, rt: &HostRuntime, name: &str) -> Result<Vec<u8>, IoFault> {
    match fs::File::open(rt, name) {
        Ok(mut file) => read_whole(alloc, &mut file, MOST_BYTES),
        Err(_) => Err(IoFault::Failed),
    }
}

impl<'a> Files for Disk<'a> {
    ghost reads = { λ before name answer after. Unit {0} };

    ghost faults = { λ disk. disk.faults };

    ghost content = { λ disk. None };

    fn read(&mut self, alloc: Global, name: &str) -> Result<Vec<u8>, IoFault> {
        let faults = self.faults;
        match read_named(alloc, self.rt, name) {
            Ok(bytes) => Ok(bytes),
            Err(IoFault::OutOfMemory) => Err(IoFault::OutOfMemory),
            Err(IoFault::Failed) => {
                self.faults = faults.saturating_add(1);
                Err(IoFault::Failed)
            }
        }
    }
}
