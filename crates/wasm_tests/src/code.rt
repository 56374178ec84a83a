//! Expressions whose instructions or faults come from outside the reader.

use crate::told::bytes_of;
use std::test::Fail;
use wasm_code::read_code;

/// Expressions behind one other byte, as hexadecimal digits, and what is told of each.
const ROWS: &str = "\
ff 41 ff7f 1a 0b 0b;after 6 [Const(I32(4294967295)), Drop, End]
00 0b;after 2 [End]
00 20 8080808000 0b;after 8 [LocalGet(0), End]
00 20 808080808000 0b;BadLeb at 2
00 20 8080808010 0b;BadLeb at 2
00 41 8080808078 0b;after 8 [Const(I32(2147483648)), End]
00 41 8080808008 0b;BadLeb at 2
00 02 40 05 0b 0b;BadForm at 3
00 04 40 05 05 0b 0b;BadForm at 4
00 02 7c 0b 0b;FloatUsed at 2
00 11 00 01 0b;BadForm at 3
00 c0 0b;BadOpcode at 1
00 02 40 0b;SectionSize at 4";

fn told(rt: &HostRuntime, bytes: &[u8]) -> Result<String, Fail> {
    if bytes.is_empty() {
        return Err("no bytes".into());
    }
    match read_code(rt.alloc(), bytes, 1, bytes.len()) {
        Ok((code, after)) => Ok(format!(in rt.alloc(); "after {after} {code:?}")?),
        Err(fault) => Ok(format!(in rt.alloc(); "{:?} at {}", fault.kind, fault.place)?),
    }
}

#[test]
fn expressions(rt: HostRuntime) -> Result<(), Fail> {
    for row in ROWS.split('\n') {
        let (digits, wanted) = row.split_once(';').ok_or("no text")?;
        let found = told(&rt, &bytes_of(&rt, b"", digits)?)?;
        assert!(rt; found.as_str() == wanted, "{row}: {found}");
    }
    Ok(())
}
