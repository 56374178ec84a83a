//! The adapters over the files of the machine.

use crate::disk::{Disk, read_whole};
use crate::output::Output;
use edge_outside::{Failed, Files, IoFault, Sink};
use std::fs;
use std::fs::File;
use std::io::{self, ErrorKind, Read};
use std::test::Fail;

/// A file of many kilobytes: the program that runs.
const LONG: &str = "/proc/self/exe";

#[test]
fn files_are_read_whole_or_fail(rt: HostRuntime) -> Result<(), Fail> {
    let alloc = rt.alloc();
    let wanted = fs::read(&rt, LONG).map_err(|_| "no program")?;
    assert!(rt; wanted.len() > 20_000);
    let mut disk = Disk::new(&rt);
    let bytes = disk.read(alloc, LONG).map_err(|_| "not read")?;
    assert!(rt; bytes.as_slice() == wanted.as_slice());
    // No such file, and a folder.
    for name in ["/no such file", "/"] {
        assert!(rt;
            disk.read(alloc, name).err() == Some(IoFault::Failed),
            "{name}"
        );
    }
    // As long as may be, and longer; one without an end.
    for (name, most, fits) in [
        (LONG, wanted.len(), true),
        (LONG, wanted.len() - 1, false),
        ("/dev/zero", 10_000, false),
    ] {
        let mut file = File::open(&rt, name).map_err(|_| "not opened")?;
        match read_whole(alloc, &mut file, most) {
            Ok(bytes) => assert!(rt; fits && bytes.len() == most, "{name}"),
            Err(fault) => assert!(rt; !fits && fault == IoFault::Failed, "{name}"),
        }
    }
    Ok(())
}

/// Gives one byte at a time, and fails behind the last.
#[derive(Drop)]
struct BreaksOff {
    left: u64,
}

impl Read for BreaksOff {
    fn read(&mut self, into: &mut [u8]) -> io::Result<usize> {
        if self.left == 0 {
            return Err(io::Error::from(ErrorKind::ConnectionReset));
        }
        if into.is_empty() {
            return Ok(0);
        }
        self.left -= 1;
        Ok(1)
    }
}

#[test]
fn a_read_that_breaks_off_fails(rt: HostRuntime) {
    let answer = read_whole(rt.alloc(), &mut BreaksOff { left: 3 }, 10);
    assert!(rt; answer.err() == Some(IoFault::Failed));
}

#[test]
fn pieces_are_written_whole_or_fail(rt: HostRuntime) -> Result<(), Fail> {
    let bytes = vec![in rt.alloc(); 7u8; 10_000]?;
    let piece = bytes.as_slice();
    assert!(rt; piece.len() > 4_096);
    let mut kept = Vec::new(rt.alloc());
    let mut out = Output::new(&mut kept);
    assert!(rt; out.write(piece).is_ok());
    assert!(rt; out.write(b"end").is_ok());
    assert_eq!(rt; kept.len(), 10_003);
    assert_eq!(rt; kept.last().copied(), Some(b'd'));
    // A device that is full.
    let full = File::create(&rt, "/dev/full").map_err(|_| "not opened")?;
    assert!(rt; Output::new(full).write(b"piece") == Err(Failed));
    Ok(())
}
