//! Modules whose operands fit, or not.

/// The modules, and what is told of them.
pub const ROWS: &[(&[u8], &[u8])] = &[
    // (func i32.add drop)
    (
        b"\x01\x04\x01`\x00\x00\x03\x02\x01\x00\x0a\x06\x01\x04\x00j\x1a\x0b",
        b"module: type-mismatch in function 0 at 0",
    ),
    // (func i32.const 0 i64.const 0 i32.add drop)
    (
        b"\x01\x04\x01`\x00\x00\x03\x02\x01\x00\x0a\x0a\x01\x08\x00A\x00B\x00j\x1a\x0b",
        b"module: type-mismatch in function 0 at 2",
    ),
    // (func (result i32) )
    (
        b"\x01\x05\x01`\x00\x01\x7f\x03\x02\x01\x00\x0a\x04\x01\x02\x00\x0b",
        b"module: type-mismatch in function 0 at 0",
    ),
    // (func i32.const 0)
    (
        b"\x01\x04\x01`\x00\x00\x03\x02\x01\x00\x0a\x06\x01\x04\x00A\x00\x0b",
        b"module: type-mismatch in function 0 at 1",
    ),
    // (func (result i32) i64.const 0)
    (
        b"\x01\x05\x01`\x00\x01\x7f\x03\x02\x01\x00\x0a\x06\x01\x04\x00B\x00\x0b",
        b"module: type-mismatch in function 0 at 1",
    ),
    // (func drop)
    (
        b"\x01\x04\x01`\x00\x00\x03\x02\x01\x00\x0a\x05\x01\x03\x00\x1a\x0b",
        b"module: type-mismatch in function 0 at 0",
    ),
    // (func i32.const 0 i64.const 0 i32.const 0 select drop)
    (
        b"\x01\x04\x01`\x00\x00\x03\x02\x01\x00\x0a\x0c\x01\x0a\x00A\x00B\x00A\x00\x1b\x1a\x0b",
        b"module: type-mismatch in function 0 at 3",
    ),
    // (func nop block (result i32) end drop)
    (
        b"\x01\x04\x01`\x00\x00\x03\x02\x01\x00\x0a\x09\x01\x07\x00\x01\x02\x7f\x0b\x1a\x0b",
        b"module: type-mismatch in function 0 at 1",
    ),
    // (func i32.const 0 block drop end)
    (
        b"\x01\x04\x01`\x00\x00\x03\x02\x01\x00\x0a\x0a\x01\x08\x00A\x00\x02@\x1a\x0b\x0b",
        b"module: type-mismatch in function 0 at 2",
    ),
    // (func loop (result i64) i32.const 0 end drop)
    (
        b"\x01\x04\x01`\x00\x00\x03\x02\x01\x00\x0a\x0a\x01\x08\x00\x03~A\x00\x0b\x1a\x0b",
        b"module: type-mismatch in function 0 at 0",
    ),
    // (func if end)
    (
        b"\x01\x04\x01`\x00\x00\x03\x02\x01\x00\x0a\x07\x01\x05\x00\x04@\x0b\x0b",
        b"module: type-mismatch in function 0 at 0",
    ),
    // (func i32.const 1 if (result i32) i32.const 2 end drop)
    (
        b"\x01\x04\x01`\x00\x00\x03\x02\x01\x00\x0a\x0c\x01\x0a\x00A\x01\x04\x7fA\x02\x0b\x1a\x0b",
        b"module: type-mismatch in function 0 at 1",
    ),
    // (func i32.const 1 if (result i32) i64.const 2 else i32.const 2 end drop)
    (
        b"\x01\x04\x01`\x00\x00\x03\x02\x01\x00\x0a\x0f\x01\x0d\x00A\x01\x04\x7fB\x02\x05A\x02\x0b\x1a\x0b",
        b"module: type-mismatch in function 0 at 1",
    ),
    // (func i32.const 1 if (result i32) i32.const 2 else i64.const 2 end drop)
    (
        b"\x01\x04\x01`\x00\x00\x03\x02\x01\x00\x0a\x0f\x01\x0d\x00A\x01\x04\x7fA\x02\x05B\x02\x0b\x1a\x0b",
        b"module: type-mismatch in function 0 at 1",
    ),
    // (func i32.const 1 if nop else nop end drop)
    (
        b"\x01\x04\x01`\x00\x00\x03\x02\x01\x00\x0a\x0d\x01\x0b\x00A\x01\x04@\x01\x05\x01\x0b\x1a\x0b",
        b"module: type-mismatch in function 0 at 4",
    ),
    // (func block (result i32) br 0 end drop)
    (
        b"\x01\x04\x01`\x00\x00\x03\x02\x01\x00\x0a\x0a\x01\x08\x00\x02\x7f\x0c\x00\x0b\x1a\x0b",
        b"module: type-mismatch in function 0 at 1",
    ),
    // (func block (result i32) i64.const 0 i32.const 0 br_if 0 end drop)
    (
        b"\x01\x04\x01`\x00\x00\x03\x02\x01\x00\x0a\x0e\x01\x0c\x00\x02\x7fB\x00A\x00\x0d\x00\x0b\x1a\x0b",
        b"module: type-mismatch in function 0 at 3",
    ),
    // (func block (result i64) block (result i32) i64.const 0 i32.const 0 br_if 0 end drop i64.const 0 end drop)
    (
        b"\x01\x04\x01`\x00\x00\x03\x02\x01\x00\x0a\x14\x01\x12\x00\x02~\x02\x7fB\x00A\x00\x0d\x00\x0b\x1aB\x00\x0b\x1a\x0b",
        b"module: type-mismatch in function 0 at 4",
    ),
    // (func block (result i32) block i32.const 0 i32.const 0 br_table 0 1 end i32.const 0 end drop)
    (
        b"\x01\x04\x01`\x00\x00\x03\x02\x01\x00\x0a\x15\x01\x13\x00\x02\x7f\x02@A\x00A\x00\x0e\x01\x00\x01\x0bA\x00\x0b\x1a\x0b",
        b"module: type-mismatch in function 0 at 4",
    ),
    // (func (result i32) block unreachable i32.const 0 br_table 0 1 end)
    (
        b"\x01\x05\x01`\x00\x01\x7f\x03\x02\x01\x00\x0a\x0e\x01\x0c\x00\x02@\x00A\x00\x0e\x01\x00\x01\x0b\x0b",
        b"module: type-mismatch in function 0 at 3",
    ),
    // (func (result i32) i64.const 0 return)
    (
        b"\x01\x05\x01`\x00\x01\x7f\x03\x02\x01\x00\x0a\x07\x01\x05\x00B\x00\x0f\x0b",
        b"module: type-mismatch in function 0 at 1",
    ),
    // (func (param i64) i32.const 0 call 0)
    (
        b"\x01\x05\x01`\x01~\x00\x03\x02\x01\x00\x0a\x08\x01\x06\x00A\x00\x10\x00\x0b",
        b"module: type-mismatch in function 0 at 1",
    ),
    // (func (param i64 i32) (result i32) i64.const 0 i32.const 0 call 0 drop i32.const 1)
    (
        b"\x01\x07\x01`\x02~\x7f\x01\x7f\x03\x02\x01\x00\x0a\x0d\x01\x0b\x00B\x00A\x00\x10\x00\x1aA\x01\x0b",
        b"ok",
    ),
    // (table 1 funcref) (func i64.const 0 call_indirect (type 0))
    (
        b"\x01\x04\x01`\x00\x00\x03\x02\x01\x00\x04\x04\x01p\x00\x01\x0a\x09\x01\x07\x00B\x00\x11\x00\x00\x0b",
        b"module: type-mismatch in function 0 at 1",
    ),
    // (func (param i32) i64.const 0 local.set 0)
    (
        b"\x01\x05\x01`\x01\x7f\x00\x03\x02\x01\x00\x0a\x08\x01\x06\x00B\x00!\x00\x0b",
        b"module: type-mismatch in function 0 at 1",
    ),
    // (global i64 (i64.const 0)) (func i32.const 0 global.set 0)
    (
        b"\x01\x04\x01`\x00\x00\x03\x02\x01\x00\x06\x06\x01~\x00B\x00\x0b\x0a\x08\x01\x06\x00A\x00$\x00\x0b",
        b"module: type-mismatch in function 0 at 1",
    ),
    // (memory 1) (func i64.const 0 i32.load drop)
    (
        b"\x01\x04\x01`\x00\x00\x03\x02\x01\x00\x05\x03\x01\x00\x01\x0a\x0a\x01\x08\x00B\x00(\x02\x00\x1a\x0b",
        b"module: type-mismatch in function 0 at 1",
    ),
    // (memory 1) (func i64.const 0 i32.const 0 i32.store)
    (
        b"\x01\x04\x01`\x00\x00\x03\x02\x01\x00\x05\x03\x01\x00\x01\x0a\x0b\x01\x09\x00B\x00A\x006\x02\x00\x0b",
        b"module: type-mismatch in function 0 at 2",
    ),
    // (func i64.const 0 i32.eqz drop)
    (
        b"\x01\x04\x01`\x00\x00\x03\x02\x01\x00\x0a\x08\x01\x06\x00B\x00E\x1a\x0b",
        b"module: type-mismatch in function 0 at 1",
    ),
    // (func i32.const 0 i32.wrap_i64 drop)
    (
        b"\x01\x04\x01`\x00\x00\x03\x02\x01\x00\x0a\x08\x01\x06\x00A\x00\xa7\x1a\x0b",
        b"module: type-mismatch in function 0 at 1",
    ),
    // (global i32 (i64.const 0))
    (
        b"\x06\x06\x01\x7f\x00B\x00\x0b",
        b"module: type-mismatch in global 0",
    ),
    // (global i32 (i32.const 0) (i32.const 0))
    (
        b"\x06\x08\x01\x7f\x00A\x00A\x00\x0b",
        b"module: type-mismatch in global 0",
    ),
    // (table 1 funcref) (elem (offset i64.const 0) func)
    (
        b"\x04\x04\x01p\x00\x01\x09\x06\x01\x00B\x00\x0b\x00",
        b"module: type-mismatch in element 0",
    ),
    // (memory 1) (data (offset i64.const 0) "a")
    (
        b"\x05\x03\x01\x00\x01\x0b\x07\x01\x00B\x00\x0b\x01a",
        b"module: type-mismatch in data 0",
    ),
    // (import "m" "g" (global i64)) (import "m" "f" (func)) (func nop) (func global.get 0 drop i32.const 0 call 0)
    (
        b"\x01\x04\x01`\x00\x00\x02\x0e\x02\x01m\x01g\x03~\x00\x01m\x01f\x00\x00\x03\x03\x02\x00\x00\x0a\x0f\x02\x03\x00\x01\x0b\x09\x00#\x00\x1aA\x00\x10\x00\x0b",
        b"module: type-mismatch in function 2 at 4",
    ),
];
