//! Modules whose other parts are right, or not.

/// The modules, and what is told of them.
pub const ROWS: &[(&[u8], &[u8])] = &[
    // (global i32 (i32.const 0)) (func i32.const 0 global.set 0)
    (
        b"\x01\x04\x01`\x00\x00\x03\x02\x01\x00\x06\x06\x01\x7f\x00A\x00\x0b\x0a\x08\x01\x06\x00A\x00$\x00\x0b",
        b"module: immutable-global in function 0 at 1",
    ),
    // (global (mut i32) (i32.const 0)) (func i32.const 0 global.set 0)
    (
        b"\x01\x04\x01`\x00\x00\x03\x02\x01\x00\x06\x06\x01\x7f\x01A\x00\x0b\x0a\x08\x01\x06\x00A\x00$\x00\x0b",
        b"ok",
    ),
    // (memory 1) (func i32.const 0 i32.load align=4 drop)
    (
        b"\x01\x04\x01`\x00\x00\x03\x02\x01\x00\x05\x03\x01\x00\x01\x0a\x0a\x01\x08\x00A\x00(\x02\x00\x1a\x0b",
        b"ok",
    ),
    // (memory 1) (func i32.const 0 i32.load align=8 drop)
    (
        b"\x01\x04\x01`\x00\x00\x03\x02\x01\x00\x05\x03\x01\x00\x01\x0a\x0a\x01\x08\x00A\x00(\x03\x00\x1a\x0b",
        b"module: bad-align in function 0 at 1",
    ),
    // (memory 1) (func i32.const 0 i64.load8_u align=2 drop)
    (
        b"\x01\x04\x01`\x00\x00\x03\x02\x01\x00\x05\x03\x01\x00\x01\x0a\x0a\x01\x08\x00A\x001\x01\x00\x1a\x0b",
        b"module: bad-align in function 0 at 1",
    ),
    // (memory 1) (func i32.const 0 i64.load32_s align=4 drop)
    (
        b"\x01\x04\x01`\x00\x00\x03\x02\x01\x00\x05\x03\x01\x00\x01\x0a\x0a\x01\x08\x00A\x004\x02\x00\x1a\x0b",
        b"ok",
    ),
    // (memory 1) (func i32.const 0 i64.const 0 i64.store align=8)
    (
        b"\x01\x04\x01`\x00\x00\x03\x02\x01\x00\x05\x03\x01\x00\x01\x0a\x0b\x01\x09\x00A\x00B\x007\x03\x00\x0b",
        b"ok",
    ),
    // (memory 1) (func i32.const 0 i64.const 0 i64.store16 align=4)
    (
        b"\x01\x04\x01`\x00\x00\x03\x02\x01\x00\x05\x03\x01\x00\x01\x0a\x0b\x01\x09\x00A\x00B\x00=\x02\x00\x0b",
        b"module: bad-align in function 0 at 2",
    ),
    // (global i32 (i32.add (i32.const 0) (i32.const 0)))
    (
        b"\x06\x09\x01\x7f\x00A\x00A\x00j\x0b",
        b"module: bad-const in global 0",
    ),
    // (import "m" "g" (global (mut i32))) (global i32 (global.get 0))
    (
        b"\x02\x08\x01\x01m\x01g\x03\x7f\x01\x06\x06\x01\x7f\x00#\x00\x0b",
        b"module: bad-const in global 0",
    ),
    // (import "m" "g" (global i32)) (global i32 (global.get 0))
    (
        b"\x02\x08\x01\x01m\x01g\x03\x7f\x00\x06\x06\x01\x7f\x00#\x00\x0b",
        b"ok",
    ),
    // (table 1 funcref) (elem (offset nop i32.const 0) func)
    (
        b"\x04\x04\x01p\x00\x01\x09\x07\x01\x00\x01A\x00\x0b\x00",
        b"module: bad-const in element 0",
    ),
    // (memory 1) (data (offset block end i32.const 0) "a")
    (
        b"\x05\x03\x01\x00\x01\x0b\x0a\x01\x00\x02@\x0bA\x00\x0b\x01a",
        b"module: bad-const in data 0",
    ),
    // (memory 1) (global (mut i32) (i32.const 0)) (data (global.get 0) "a")
    (
        b"\x05\x03\x01\x00\x01\x06\x06\x01\x7f\x01A\x00\x0b\x0b\x07\x01\x00#\x00\x0b\x01a",
        b"module: bad-const in data 0",
    ),
    // (import "m" "t" (table 2 1 funcref))
    (
        b"\x02\x0a\x01\x01m\x01t\x01p\x01\x02\x01",
        b"module: bad-limits in import 0",
    ),
    // (import "m" "n" (memory 2 1))
    (
        b"\x02\x09\x01\x01m\x01n\x02\x01\x02\x01",
        b"module: bad-limits in import 0",
    ),
    // (table 2 1 funcref)
    (
        b"\x04\x05\x01p\x01\x02\x01",
        b"module: bad-limits in table 0",
    ),
    // (memory 2 1)
    (
        b"\x05\x04\x01\x01\x02\x01",
        b"module: bad-limits in memory 0",
    ),
    // (func (param i32)) (start 0)
    (
        b"\x01\x05\x01`\x01\x7f\x00\x03\x02\x01\x00\x08\x01\x00\x0a\x04\x01\x02\x00\x0b",
        b"module: bad-start in start 0",
    ),
    // (func (result i32) i32.const 0) (start 0)
    (
        b"\x01\x05\x01`\x00\x01\x7f\x03\x02\x01\x00\x08\x01\x00\x0a\x06\x01\x04\x00A\x00\x0b",
        b"module: bad-start in start 0",
    ),
    // (func) (start 0)
    (
        b"\x01\x04\x01`\x00\x00\x03\x02\x01\x00\x08\x01\x00\x0a\x04\x01\x02\x00\x0b",
        b"ok",
    ),
    // (func) (export "a" (func 0)) (export "b" (func 0)) (export "a" (func 0))
    (
        b"\x01\x04\x01`\x00\x00\x03\x02\x01\x00\x07\x0d\x03\x01a\x00\x00\x01b\x00\x00\x01a\x00\x00\x0a\x04\x01\x02\x00\x0b",
        b"module: duplicate-export in export 2",
    ),
    // (import "m" "t" (table 1 funcref)) (import "m" "f" (func)) (import "m" "t" (table 1 funcref))
    (
        b"\x01\x04\x01`\x00\x00\x02\x17\x03\x01m\x01t\x01p\x00\x01\x01m\x01f\x00\x00\x01m\x01t\x01p\x00\x01",
        b"module: more-than-one in import 2",
    ),
    // (import "m" "t" (table 1 funcref)) (table 1 funcref)
    (
        b"\x02\x09\x01\x01m\x01t\x01p\x00\x01\x04\x04\x01p\x00\x01",
        b"module: more-than-one in table 0",
    ),
    // (table 1 funcref) (table 1 funcref)
    (
        b"\x04\x07\x02p\x00\x01p\x00\x01",
        b"module: more-than-one in table 1",
    ),
    // (import "m" "n" (memory 1)) (import "m" "n" (memory 1))
    (
        b"\x02\x0f\x02\x01m\x01n\x02\x00\x01\x01m\x01n\x02\x00\x01",
        b"module: more-than-one in import 1",
    ),
    // (import "m" "n" (memory 1)) (memory 1)
    (
        b"\x02\x08\x01\x01m\x01n\x02\x00\x01\x05\x03\x01\x00\x01",
        b"module: more-than-one in memory 0",
    ),
    // (memory 1) (memory 1)
    (
        b"\x05\x05\x02\x00\x01\x00\x01",
        b"module: more-than-one in memory 1",
    ),
    // (memory 1) (memory 2 1)
    (
        b"\x05\x06\x02\x00\x01\x01\x02\x01",
        b"module: bad-limits in memory 1",
    ),
    // (func (type 9)) (table 2 1 funcref)
    (
        b"\x03\x02\x01\x09\x04\x05\x01p\x01\x02\x01\x0a\x04\x01\x02\x00\x0b",
        b"module: unknown-type in func 0",
    ),
    // (table 2 1 funcref) (memory 2 1) (export "f" (func 9))
    (
        b"\x04\x05\x01p\x01\x02\x01\x05\x04\x01\x01\x02\x01\x07\x05\x01\x01f\x00\x09",
        b"module: bad-limits in table 0",
    ),
    // (export "f" (func 9)) (start 9) (func drop)
    (
        b"\x01\x04\x01`\x00\x00\x03\x02\x01\x00\x07\x05\x01\x01f\x00\x09\x08\x01\x09\x0a\x05\x01\x03\x00\x1a\x0b",
        b"module: unknown-function in export 0",
    ),
];
