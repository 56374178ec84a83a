use super::*;
use edge_modules::{load, module_line};
use std::test::Fail;

const SMALLEST: &[u8] =
    b"\0asm\x01\0\0\0\x01\x04\x01\x60\0\0\x03\x02\x01\0\x07\x0a\x01\x06_start\0\0\x0a\x04\x01\x02\0\x0b";

/// The guests, and what `edge check` writes of them.
const ROWS: [(&str, &str); 2] = [
    ("smallest", "ok functions 1 imports 0 pages 0\n"),
    ("hello", "ok functions 1 imports 5 pages 1\n"),
];

#[test]
fn both_are_accepted(rt: HostRuntime) -> Result<(), Fail> {
    let alloc = rt.alloc();
    for (name, wanted) in ROWS {
        let module = named(alloc, name)?.ok_or("no module")?;
        let bytes = write_module(alloc, &module)?;
        assert!(rt; (bytes.as_slice() == SMALLEST) == (name == "smallest"));
        let Ok(linked) = load(alloc, &bytes) else {
            return Err("a refusal".into());
        };
        assert_eq!(rt; module_line(alloc, &linked)?.as_str(), wanted);
    }
    Ok(())
}
