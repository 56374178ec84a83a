//! Guests of modules that are played, and the order of what is refused.

use edge_outside::{MemFiles, MemSink, NamedFile, NoLink};
use edge_top::{Exit, host};
use std::alloc::{AllocError, Global};
use std::test::Fail;

fn file_of(alloc: Global, name: &str, bytes: &[u8]) -> Result<NamedFile, AllocError> {
    let name = String::from_str(alloc, name)?;
    let bytes = bytes.to_vec(alloc)?;
    Ok(NamedFile { name, bytes })
}

/// The words of a play of the files `m`, `s` and `r`.
fn words_of(alloc: Global) -> Result<Vec<String>, AllocError> {
    let mut words = Vec::new(alloc);
    for word in "play m s r".split(' ') {
        words.push(String::from_str(alloc, word)?)?;
    }
    Ok(words)
}

/// How `host` exits there with these files, and what it wrote; the read with this number fails, and with 0 none.
fn exit_of(
    rt: &HostRuntime,
    module: &[u8],
    settings: &[u8],
    run: &[u8],
    fails: u64,
) -> Result<(Exit, Vec<u8>), AllocError> {
    let alloc = rt.alloc();
    let mut named = Vec::new(alloc);
    named.push(file_of(alloc, "m", module)?)?;
    named.push(file_of(alloc, "s", settings)?)?;
    named.push(file_of(alloc, "r", run)?)?;
    named.push(file_of(alloc, "t", b"{\"key\":\"value\"}")?)?;
    let mut reads = Vec::new(alloc);
    if fails > 0 {
        reads.push(fails)?;
    }
    let words = words_of(alloc)?;
    let mut files = MemFiles::new(alloc, named, reads);
    let mut out = MemSink::new(alloc, Vec::new(alloc));
    let mut link = NoLink::new();
    let exit = host(alloc, &words, &mut files, &mut out, &mut link);
    Ok((exit, out.bytes().to_vec(alloc)?))
}

/// The smallest module, with this code behind its one function's locals.
fn module_of(alloc: Global, digits: &str) -> Result<Vec<u8>, Fail> {
    let code = hex::decode(alloc, digits.as_bytes())?;
    let mut bytes =
        b"\0asm\x01\0\0\0\x01\x04\x01\x60\0\0\x03\x02\x01\0\x07\x0a\x01\x06_start\0\0\x0a".to_vec(
            alloc,
        )?;
    let size = u8::try_from(code.len()).unwrap_or(u8::MAX);
    bytes.extend_from_slice(&[size.saturating_add(3), 1, size.saturating_add(1), 0])?;
    bytes.extend_from_slice(code.as_slice())?;
    Ok(bytes)
}

/// A play file of one request, with this fuel and these steps, in which a slash stands for a line feed.
fn run_of(alloc: Global, fuel: &str, steps: &str) -> Result<String, AllocError> {
    let zeros = "00000000000000000000000000000000";
    let steps = steps.replace(alloc, "/", "\n")?;
    format!(in alloc;
        "edge-play 1\nfuel {fuel}\nrandom {zeros}{zeros}\nrequest 474554202f6120485454502f312e310d0a486f73743a20780d0a0d0a\nsteps\n{steps}end\n"
    )
}

/// Code, fuel, steps, and how its guest is over, which made its Begin and its End.
const ROWS: &str = "\
0b;0;0 1/0 1/;returned
0b;0;0 1/;unscheduled
0b;0;0 1/0 1/0 1/;returned
0101010b;0;0 1/0 1/;fuel
0101010b;1;0 1/0 1/;fuel
0101010b;2;0 1/0 1/;fuel
0101010b;3;0 1/0 1/;returned
000b;1;0 1/0 1/;trapped unreachable
03400c000b0b;1000;0 1/0 1/;fuel";

#[test]
fn guests_are_played(rt: HostRuntime) -> Result<(), Fail> {
    let alloc = rt.alloc();
    for row in ROWS.split('\n') {
        let (code, rest) = row.split_once(';').ok_or("no fuel")?;
        let (fuel, rest) = rest.split_once(';').ok_or("no steps")?;
        let (steps, over) = rest.split_once(';').ok_or("no outcome")?;
        let module = module_of(alloc, code)?;
        let run = run_of(alloc, fuel, steps)?;
        let (exit, written) = exit_of(&rt, &module, b"", run.as_bytes(), 0)?;
        let wanted = format!(in alloc;
            "edge-journal 1\n1 1 0 begin = begun\n2 1 0 end = done\nguest 1 1\nc 1\nc 2\nover {over}\nend 2\n"
        )?;
        assert!(rt;
            exit == Exit::Ok && written.as_slice() == wanted.as_bytes(),
            "{row}: {exit:?}"
        );
    }
    Ok(())
}

/// Code, or none for a file that is no module; settings; steps; which read fails; and what is told. Nothing is written.
const REFUSED: &str = "\
0b;;0 1/;1;read fault
0b;;0 1/;2;read fault
0b;;0 1/;3;read fault
;[;0 2/;0;module: section-size at 35
6a0b;[;0 2/;0;module: type-mismatch in function 0 at 0
0b;[;0 2/;0;settings: not-toml
0b;[local_server.backends.b];0 2/;0;settings: missing-url
0b;;0 2/;0;run: line 6
0b;[local_server.dictionaries.d]|format = \"json\"|file = \"t\";0 1/;4;read fault
0b;[local_server.dictionaries.d]|format = \"json\"|file = \"u\";0 1/;0;read fault
0b;[local_server.dictionaries.d]|format = \"json\"|file = \"m\";0 2/;0;settings: bad-file
0b;[local_server.dictionaries.d]|format = \"json\"|file = \"t\";0 2/;0;run: line 6";

#[test]
fn plays_are_refused(rt: HostRuntime) -> Result<(), Fail> {
    let alloc = rt.alloc();
    for row in REFUSED.split('\n') {
        let (code, rest) = row.split_once(';').ok_or("no settings")?;
        let (settings, rest) = rest.split_once(';').ok_or("no steps")?;
        let (steps, rest) = rest.split_once(';').ok_or("no read")?;
        let (fails, wanted) = rest.split_once(';').ok_or("no text")?;
        let module = module_of(alloc, code)?;
        let settings = settings.replace(alloc, "|", "\n")?;
        let run = run_of(alloc, "0", steps)?;
        let fails = fails.parse()?;
        let (exit, written) = exit_of(&rt, &module, settings.as_bytes(), run.as_bytes(), fails)?;
        let told = exit.text(alloc)?;
        assert!(rt;
            told.as_str() == wanted && written.is_empty(),
            "{row}: {told}"
        );
    }
    Ok(())
}
