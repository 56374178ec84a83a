//! What `check` tells of modules.

use crate::commands::exit_of;
use edge_top::Exit;
use std::test::Fail;

/// Modules behind the magic and the version, as hexadecimal digits, and what is told of each.
const ROWS: &str = "\
010401600000 03020100 070a01065f73746172740000 0a040102000b;ok functions 1 imports 0 pages 0
010401600000 0303018000 070a01065f73746172740000 0a040102000b;ok functions 1 imports 0 pages 0
010401600000 03020100 070a01065f73746172740000 0a0e010c004400000000000000001a0b;module: float-used at 35
010401600000 03020100 070a01065f73746172740000 0a040102000b 00;module: truncated at 37
010401600000 03020100 070a01065f73746172740000 0a0801060003406a0b0b;module: type-mismatch in function 0 at 1
010401600000 020701016101620000 03020100 070a01065f73746172740001 0a040102000b;module: unknown-import 0
010401600000 02180110666173746c795f687474705f626f6479036e65770000 03020100 070a01065f73746172740001 0a040102000b;module: wrong-type 0
01090260000060017f017f 02180110666173746c795f687474705f626f6479036e65770001 03020100 070a01065f73746172740000 0a040102000b;module: no-start
01090260000060017f017f 02180110666173746c795f687474705f626f6479036e65770001 03020100 070a01065f73746172740001 0a040102000b;module: no-memory
01090260000060017f017f 02180110666173746c795f687474705f626f6479036e65770001 03020100 0503010002 071302065f73746172740001066d656d6f72790200 0a040102000b;ok functions 1 imports 1 pages 2";

/// The line of a module without its line feed, or the text of its exit.
fn told(rt: &HostRuntime, bytes: &[u8]) -> Result<String, Fail> {
    match exit_of(rt, "check a", bytes, "")? {
        (Exit::Ok, line) => match line.as_slice() {
            [text @ .., b'\n'] => Ok(String::from_utf8_lossy(rt.alloc(), text)?),
            _ => Err("no line feed".into()),
        },
        (exit, _) => Ok(exit.text(rt.alloc())?),
    }
}

#[test]
fn modules_are_told(rt: HostRuntime) -> Result<(), Fail> {
    for row in ROWS.split('\n') {
        let (digits, wanted) = row.split_once(';').ok_or("no text")?;
        let digits = digits.replace(rt.alloc(), " ", "")?;
        let mut bytes = b"\0asm\x01\0\0\0".to_vec(rt.alloc())?;
        bytes.extend_from_slice(hex::decode(rt.alloc(), digits.as_bytes())?.as_slice())?;
        let found = told(&rt, &bytes)?;
        assert!(rt; found.as_str() == wanted, "{row}: {found}");
    }
    Ok(())
}

/// The smallest module.
const SMALLEST: &[u8] =
    b"\0asm\x01\0\0\0\x01\x04\x01\x60\0\0\x03\x02\x01\0\x07\x0a\x01\x06_start\0\0\x0a\x04\x01\x02\0\x0b";

#[test]
fn cut_modules_are_told(rt: HostRuntime) -> Result<(), Fail> {
    for n in 0..SMALLEST.len() {
        let found = told(&rt, &SMALLEST[..n])?;
        let wanted = match n {
            8 | 14 => String::from_str(rt.alloc(), "module: no-start")?,
            18 | 30 => format!(in rt.alloc(); "module: count-mismatch at {n}")?,
            _ => format!(in rt.alloc(); "module: truncated at {n}")?,
        };
        assert!(rt; found == wanted, "cut to {n}: {found}");
    }
    Ok(())
}
