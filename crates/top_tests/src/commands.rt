//! A command over one file, and the exits of commands that fail.

use edge_outside::{MemFiles, MemSink, NamedFile, NoLink};
use edge_top::{Exit, host};
use std::alloc::AllocError;
use std::test::Fail;

/// How `host` exits with these words, and what it wrote, where the file `a` has these bytes; of the reads and the writes
/// the first fails where that is wanted.
pub fn exit_of(
    rt: &HostRuntime,
    words: &str,
    bytes: &[u8],
    fails: &str,
) -> Result<(Exit, Vec<u8>), AllocError> {
    let alloc = rt.alloc();
    let name = String::from_str(alloc, "a")?;
    let bytes = bytes.to_vec(alloc)?;
    let file = NamedFile { name, bytes };
    let mut named = Vec::new(alloc);
    named.push(file)?;
    let mut reads = Vec::new(alloc);
    if fails == "read" {
        reads.push(1)?;
    }
    let mut writes = Vec::new(alloc);
    if fails == "write" {
        writes.push(1)?;
    }
    let mut list = Vec::new(alloc);
    if words != "none" {
        for word in words.split(' ') {
            list.push(String::from_str(alloc, word)?)?;
        }
    }
    let mut files = MemFiles::new(alloc, named, reads);
    let mut out = MemSink::new(alloc, writes);
    let exit = host(
        alloc,
        list.as_slice(),
        &mut files,
        &mut out,
        &mut NoLink::new(),
    );
    Ok((exit, out.bytes().to_vec(alloc)?))
}

/// Words, or `none`; a run file, in which a slash stands for a line feed; what fails; and the exit. Nothing is written.
const FAULTS: &str = "\
none;edge-run 1/steps/end/;;Usage
script;edge-run 1/steps/end/;;Usage
script ;edge-run 1/steps/end/;;Usage
Script a;edge-run 1/steps/end/;;Usage
load 07;edge-run 1/steps/end/;;Usage
load a;edge-run 1/steps/end/;;Usage
load 18446744073709551616;edge-run 1/steps/end/;;Usage
script -a;edge-run 1/steps/end/;;Usage
script a b;edge-run 1/steps/end/;;Usage
script b;edge-run 1/steps/end/;;ReadFault
script a;edge-run 1/steps/end/;read;ReadFault
script a;edge-run 1/steps/end/;write;WriteFault
script a;;;RunBad { line: 1 }
script a;edge-run 1/guest/lookup 6b/lookup 6/steps/end/;;RunBad { line: 4 }";

#[test]
fn faults_are_told(rt: HostRuntime) -> Result<(), Fail> {
    for row in FAULTS.split('\n') {
        let (words, rest) = row.split_once(';').ok_or("no words")?;
        let (text, rest) = rest.split_once(';').ok_or("no text")?;
        let (fails, wanted) = rest.split_once(';').ok_or("no exit")?;
        let text = text.replace(rt.alloc(), "/", "\n")?;
        let (exit, written) = exit_of(&rt, words, text.as_bytes(), fails)?;
        let told = format!(in rt.alloc(); "{exit:?}")?;
        assert!(rt;
            told.as_str() == wanted && written.is_empty(),
            "{row}: {told}"
        );
    }
    Ok(())
}
