//! A file's bytes, or the system's reason why they can't be had.

use std::alloc::Global;
use std::fs;
use std::io::{self, Read};

/// Reads a file up to its end, or up to so many bytes and one more.
fn read_opened(alloc: Global, file: &mut fs::File, most: usize) -> io::Result<Vec<u8>> {
    let mut bytes = Vec::new(alloc);
    let mut buffer = [0u8; 4096];
    for _ in 0..u64::MAX {
        let count = file.read(&mut buffer)?;
        if count == 0 || bytes.len() > most {
            break;
        }
        bytes.extend_from_slice(&buffer[..count])?;
    }
    Ok(bytes)
}

/// The bytes of the file with this name.
pub fn read_file(rt: &HostRuntime, name: &str, most: usize) -> io::Result<Vec<u8>> {
    let mut file = fs::File::open(rt, name)?;
    read_opened(rt.alloc(), &mut file, most)
}
