//! Modules with a start function, in bytes, put together by hand from the texts beside them. Another host of WebAssembly runs each
//! as is said here.

/// The start function sets a global to 3, and 4 in the memory; `_start` exits with 16 times the one, and the other added. The first
/// takes five units, the second seven.
// (module (import "wasi_snapshot_preview1" "proc_exit" (func $exit (param i32))) (memory (export "memory") 1)
//  (global $g (mut i32) (i32.const 1))
//  (func $first (global.set $g (i32.const 3)) (i32.store (i32.const 8) (i32.const 4)))
//  (func (export "_start")
//   (call $exit (i32.add (i32.mul (global.get $g) (i32.const 16)) (i32.load (i32.const 8)))))
//  (start $first))
pub const STARTS: &[u8] =
    b"\x00asm\x01\x00\x00\x00\x01\x08\x02`\x01\x7F\x00`\x00\x00\x02$\x01\x16wasi_snapshot_preview1\x09proc_exit\x00\x00\x03\x03\x02\x01\x01\x05\x03\x01\x00\x01\x06\x06\x01\x7F\x01A\x01\x0B\x07\x13\x02\x06memory\x02\x00\x06_start\x00\x02\x08\x01\x01\x0A\x1F\x02\x0D\x00A\x03$\x00A\x08A\x046\x02\x00\x0B\x0F\x00#\x00A\x10lA\x08(\x02\x00j\x10\x00\x0B";

/// `_start` is the start function too. Each time it adds 1 to a global, and exits where that is 2: eight units, and ten.
// (module (import "wasi_snapshot_preview1" "proc_exit" (func $exit (param i32))) (memory (export "memory") 1)
//  (global $g (mut i32) (i32.const 0))
//  (func $start (export "_start")
//   (global.set $g (i32.add (global.get $g) (i32.const 1)))
//   (if (i32.eq (global.get $g) (i32.const 2)) (then (call $exit (i32.const 2)))))
//  (start $start))
pub const STARTS_TWICE: &[u8] =
    b"\x00asm\x01\x00\x00\x00\x01\x08\x02`\x01\x7F\x00`\x00\x00\x02$\x01\x16wasi_snapshot_preview1\x09proc_exit\x00\x00\x03\x02\x01\x01\x05\x03\x01\x00\x01\x06\x06\x01\x7F\x01A\x00\x0B\x07\x13\x02\x06memory\x02\x00\x06_start\x00\x01\x08\x01\x01\x0A\x17\x01\x15\x00#\x00A\x01j$\x00#\x00A\x02F\x04@A\x02\x10\x00\x0B\x0B";

/// The start function traps; `_start` is a loop without end.
// (module (func $first unreachable) (func (export "_start") (loop (br 0))) (start $first))
pub const START_TRAPS: &[u8] =
    b"\x00asm\x01\x00\x00\x00\x01\x04\x01`\x00\x00\x03\x03\x02\x00\x00\x07\x0A\x01\x06_start\x00\x01\x08\x01\x00\x0A\x0D\x02\x03\x00\x00\x0B\x07\x00\x03@\x0C\x00\x0B\x0B";

/// The start function is a loop without end; `_start` traps.
// (module (func $first (loop (br 0))) (func (export "_start") unreachable) (start $first))
pub const START_SPINS: &[u8] =
    b"\x00asm\x01\x00\x00\x00\x01\x04\x01`\x00\x00\x03\x03\x02\x00\x00\x07\x0A\x01\x06_start\x00\x01\x08\x01\x00\x0A\x0D\x02\x07\x00\x03@\x0C\x00\x0B\x0B\x03\x00\x00\x0B";

/// The start function exits with 9; `_start` traps.
// (module (import "wasi_snapshot_preview1" "proc_exit" (func $exit (param i32))) (memory (export "memory") 1)
//  (func $first (call $exit (i32.const 9)))
//  (func (export "_start") unreachable)
//  (start $first))
pub const START_EXITS: &[u8] =
    b"\x00asm\x01\x00\x00\x00\x01\x08\x02`\x01\x7F\x00`\x00\x00\x02$\x01\x16wasi_snapshot_preview1\x09proc_exit\x00\x00\x03\x03\x02\x01\x01\x05\x03\x01\x00\x01\x07\x13\x02\x06memory\x02\x00\x06_start\x00\x02\x08\x01\x01\x0A\x0C\x02\x06\x00A\x09\x10\x00\x0B\x03\x00\x00\x0B";

/// The start function reads the monotonic clock to the place 8; `_start` traps unless the number there is 42. Each takes five
/// units.
// (module (import "wasi_snapshot_preview1" "clock_time_get" (func $clock (param i32 i64 i32) (result i32)))
//  (memory (export "memory") 1)
//  (func $first (drop (call $clock (i32.const 1) (i64.const 0) (i32.const 8))))
//  (func (export "_start") (if (i64.ne (i64.load (i32.const 8)) (i64.const 42)) (then unreachable)))
//  (start $first))
pub const START_ASKS: &[u8] =
    b"\x00asm\x01\x00\x00\x00\x01\x0B\x02`\x03\x7F~\x7F\x01\x7F`\x00\x00\x02)\x01\x16wasi_snapshot_preview1\x0Eclock_time_get\x00\x00\x03\x03\x02\x01\x01\x05\x03\x01\x00\x01\x07\x13\x02\x06memory\x02\x00\x06_start\x00\x02\x08\x01\x01\x0A\x1C\x02\x0B\x00A\x01B\x00A\x08\x10\x00\x1A\x0B\x0E\x00A\x08)\x03\x00B*R\x04@\x00\x0B\x0B";
