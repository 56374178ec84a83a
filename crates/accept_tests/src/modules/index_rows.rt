//! Modules with indices that name something, or nothing.

/// The modules, and what is told of them.
pub const ROWS: &[(&[u8], &[u8])] = &[
    // (import "m" "f" (func (type 9)))
    (
        b"\x02\x07\x01\x01m\x01f\x00\x09",
        b"module: unknown-type in import 0",
    ),
    // (func (type 9))
    (
        b"\x03\x02\x01\x09\x0a\x04\x01\x02\x00\x0b",
        b"module: unknown-type in func 0",
    ),
    // (table 1 funcref) (func i32.const 0 call_indirect (type 9))
    (
        b"\x01\x04\x01`\x00\x00\x03\x02\x01\x00\x04\x04\x01p\x00\x01\x0a\x09\x01\x07\x00A\x00\x11\x09\x00\x0b",
        b"module: unknown-type in function 0 at 1",
    ),
    // (func i32.const 0 call_indirect (type 9))
    (
        b"\x01\x04\x01`\x00\x00\x03\x02\x01\x00\x0a\x09\x01\x07\x00A\x00\x11\x09\x00\x0b",
        b"module: unknown-type in function 0 at 1",
    ),
    // (func nop call 9)
    (
        b"\x01\x04\x01`\x00\x00\x03\x02\x01\x00\x0a\x07\x01\x05\x00\x01\x10\x09\x0b",
        b"module: unknown-function in function 0 at 1",
    ),
    // (export "f" (func 9))
    (
        b"\x07\x05\x01\x01f\x00\x09",
        b"module: unknown-function in export 0",
    ),
    // (start 9)
    (b"\x08\x01\x09", b"module: unknown-function in start 0"),
    // (table 1 funcref) (elem (i32.const 0) func 9)
    (
        b"\x04\x04\x01p\x00\x01\x09\x07\x01\x00A\x00\x0b\x01\x09",
        b"module: unknown-function in element 0",
    ),
    // (func i32.const 0 call_indirect (type 0))
    (
        b"\x01\x04\x01`\x00\x00\x03\x02\x01\x00\x0a\x09\x01\x07\x00A\x00\x11\x00\x00\x0b",
        b"module: unknown-table in function 0 at 1",
    ),
    // (export "t" (table 0))
    (
        b"\x07\x05\x01\x01t\x01\x00",
        b"module: unknown-table in export 0",
    ),
    // (elem (i32.const 0) func)
    (
        b"\x09\x06\x01\x00A\x00\x0b\x00",
        b"module: unknown-table in element 0",
    ),
    // (func i32.const 0 i32.load drop)
    (
        b"\x01\x04\x01`\x00\x00\x03\x02\x01\x00\x0a\x0a\x01\x08\x00A\x00(\x02\x00\x1a\x0b",
        b"module: unknown-memory in function 0 at 1",
    ),
    // (func i32.const 0 i32.const 0 i32.store)
    (
        b"\x01\x04\x01`\x00\x00\x03\x02\x01\x00\x0a\x0b\x01\x09\x00A\x00A\x006\x02\x00\x0b",
        b"module: unknown-memory in function 0 at 2",
    ),
    // (func memory.size drop)
    (
        b"\x01\x04\x01`\x00\x00\x03\x02\x01\x00\x0a\x07\x01\x05\x00?\x00\x1a\x0b",
        b"module: unknown-memory in function 0 at 0",
    ),
    // (func i32.const 0 memory.grow drop)
    (
        b"\x01\x04\x01`\x00\x00\x03\x02\x01\x00\x0a\x09\x01\x07\x00A\x00@\x00\x1a\x0b",
        b"module: unknown-memory in function 0 at 1",
    ),
    // (export "n" (memory 0))
    (
        b"\x07\x05\x01\x01n\x02\x00",
        b"module: unknown-memory in export 0",
    ),
    // (data (i32.const 0) "a")
    (
        b"\x0b\x07\x01\x00A\x00\x0b\x01a",
        b"module: unknown-memory in data 0",
    ),
    // (func global.get 9 drop)
    (
        b"\x01\x04\x01`\x00\x00\x03\x02\x01\x00\x0a\x07\x01\x05\x00#\x09\x1a\x0b",
        b"module: unknown-global in function 0 at 0",
    ),
    // (func i32.const 0 global.set 9)
    (
        b"\x01\x04\x01`\x00\x00\x03\x02\x01\x00\x0a\x08\x01\x06\x00A\x00$\x09\x0b",
        b"module: unknown-global in function 0 at 1",
    ),
    // (export "g" (global 9))
    (
        b"\x07\x05\x01\x01g\x03\x09",
        b"module: unknown-global in export 0",
    ),
    // (global i32 (i32.const 0)) (global i32 (global.get 0))
    (
        b"\x06\x0b\x02\x7f\x00A\x00\x0b\x7f\x00#\x00\x0b",
        b"module: unknown-global in global 1",
    ),
    // (global i32 (global.get 1)) (global i32 (i32.const 0))
    (
        b"\x06\x0b\x02\x7f\x00#\x01\x0b\x7f\x00A\x00\x0b",
        b"module: unknown-global in global 0",
    ),
    // (table 1 funcref) (elem (global.get 9) func)
    (
        b"\x04\x04\x01p\x00\x01\x09\x06\x01\x00#\x09\x0b\x00",
        b"module: unknown-global in element 0",
    ),
    // (memory 1) (data (global.get 9) "a")
    (
        b"\x05\x03\x01\x00\x01\x0b\x07\x01\x00#\x09\x0b\x01a",
        b"module: unknown-global in data 0",
    ),
    // (func (param i32) (local i64) local.get 2 drop)
    (
        b"\x01\x05\x01`\x01\x7f\x00\x03\x02\x01\x00\x0a\x09\x01\x07\x01\x01~ \x02\x1a\x0b",
        b"module: unknown-local in function 0 at 0",
    ),
    // (func i32.const 0 local.set 0)
    (
        b"\x01\x04\x01`\x00\x00\x03\x02\x01\x00\x0a\x08\x01\x06\x00A\x00!\x00\x0b",
        b"module: unknown-local in function 0 at 1",
    ),
    // (func i32.const 0 local.tee 7 drop)
    (
        b"\x01\x04\x01`\x00\x00\x03\x02\x01\x00\x0a\x09\x01\x07\x00A\x00\"\x07\x1a\x0b",
        b"module: unknown-local in function 0 at 1",
    ),
    // (func br 1)
    (
        b"\x01\x04\x01`\x00\x00\x03\x02\x01\x00\x0a\x06\x01\x04\x00\x0c\x01\x0b",
        b"module: unknown-label in function 0 at 0",
    ),
    // (func block i32.const 0 br_if 2 end)
    (
        b"\x01\x04\x01`\x00\x00\x03\x02\x01\x00\x0a\x0b\x01\x09\x00\x02@A\x00\x0d\x02\x0b\x0b",
        b"module: unknown-label in function 0 at 2",
    ),
    // (func i32.const 0 br_table 0 1 0)
    (
        b"\x01\x04\x01`\x00\x00\x03\x02\x01\x00\x0a\x0b\x01\x09\x00A\x00\x0e\x02\x00\x01\x00\x0b",
        b"module: unknown-label in function 0 at 1",
    ),
    // (func br_table 0 1)
    (
        b"\x01\x04\x01`\x00\x00\x03\x02\x01\x00\x0a\x08\x01\x06\x00\x0e\x01\x00\x01\x0b",
        b"module: unknown-label in function 0 at 0",
    ),
];
