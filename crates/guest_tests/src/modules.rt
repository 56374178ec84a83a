//! Modules in bytes, written by wat2wasm of wabt from the texts beside them.

/// `_start` does nothing.
// (module (func (export "_start")))
pub const NOTHING: &[u8] =
    b"\x00asm\x01\x00\x00\x00\x01\x04\x01`\x00\x00\x03\x02\x01\x00\x07\x0A\x01\x06_start\x00\x00\x0A\x04\x01\x02\x00\x0B";

/// One instruction.
// (module (func (export "_start") nop))
pub const ONE_NOP: &[u8] =
    b"\x00asm\x01\x00\x00\x00\x01\x04\x01`\x00\x00\x03\x02\x01\x00\x07\x0A\x01\x06_start\x00\x00\x0A\x05\x01\x03\x00\x01\x0B";

/// Traps at once.
// (module (func (export "_start") unreachable))
pub const TRAPS: &[u8] =
    b"\x00asm\x01\x00\x00\x00\x01\x04\x01`\x00\x00\x03\x02\x01\x00\x07\x0A\x01\x06_start\x00\x00\x0A\x05\x01\x03\x00\x00\x0B";

/// Exits with 7.
// (module (import "wasi_snapshot_preview1" "proc_exit" (func $exit (param i32))) (memory (export "memory") 1) (func (export "_start") (call $exit (i32.const 7)) unreachable))
pub const EXITS: &[u8] =
    b"\x00asm\x01\x00\x00\x00\x01\x08\x02`\x01\x7F\x00`\x00\x00\x02$\x01\x16wasi_snapshot_preview1\x09proc_exit\x00\x00\x03\x02\x01\x01\x05\x03\x01\x00\x01\x07\x13\x02\x06memory\x02\x00\x06_start\x00\x01\x0A\x09\x01\x07\x00A\x07\x10\x00\x00\x0B";

/// Divides 1 by 0.
// (module (func (export "_start") (drop (i32.div_s (i32.const 1) (i32.const 0)))))
pub const DIVIDES: &[u8] =
    b"\x00asm\x01\x00\x00\x00\x01\x04\x01`\x00\x00\x03\x02\x01\x00\x07\x0A\x01\x06_start\x00\x00\x0A\x0A\x01\x08\x00A\x01A\x00m\x1A\x0B";

/// A loop without end.
// (module (func (export "_start") (loop (br 0))))
pub const SPINS: &[u8] =
    b"\x00asm\x01\x00\x00\x00\x01\x04\x01`\x00\x00\x03\x02\x01\x00\x07\x0A\x01\x06_start\x00\x00\x0A\x09\x01\x07\x00\x03@\x0C\x00\x0B\x0B";

/// A function that calls itself without end.
// (module (func $again (call $again)) (func (export "_start") (call $again)))
pub const CALLS_ITSELF: &[u8] =
    b"\x00asm\x01\x00\x00\x00\x01\x04\x01`\x00\x00\x03\x03\x02\x00\x00\x07\x0A\x01\x06_start\x00\x01\x0A\x0B\x02\x04\x00\x10\x00\x0B\x04\x00\x10\x00\x0B";

/// Grows a memory of one page, which may have three, by two, and then by one: it exits with 16 times what it is told first, and
/// what it is told then added.
// (module (import "wasi_snapshot_preview1" "proc_exit" (func $exit (param i32))) (memory (export "memory") 1 3)
//  (func (export "_start")
//   (call $exit (i32.add (i32.mul (memory.grow (i32.const 2)) (i32.const 16)) (memory.grow (i32.const 1))))))
pub const GROWS: &[u8] =
    b"\x00asm\x01\x00\x00\x00\x01\x08\x02`\x01\x7F\x00`\x00\x00\x02$\x01\x16wasi_snapshot_preview1\x09proc_exit\x00\x00\x03\x02\x01\x01\x05\x04\x01\x01\x01\x03\x07\x13\x02\x06memory\x02\x00\x06_start\x00\x01\x0A\x12\x01\x10\x00A\x02@\x00A\x10lA\x01@\x00j\x10\x00\x0B";

/// Grows a memory of one page, which may have as many as a guest's memory has at most, 2,048: by 2,048, which is refused, by
/// 2,047, and by 1, which is refused. It exits with 16 times what it is told first, and what it is told then added.
// (module (import "wasi_snapshot_preview1" "proc_exit" (func $exit (param i32))) (memory (export "memory") 1)
//  (func (export "_start")
//   (call $exit (i32.add (i32.add (i32.mul (memory.grow (i32.const 2048)) (i32.const 16)) (memory.grow (i32.const 2047)))
//    (memory.grow (i32.const 1))))))
pub const GROWS_TO_THE_MOST: &[u8] =
    b"\x00asm\x01\x00\x00\x00\x01\x08\x02`\x01\x7F\x00`\x00\x00\x02$\x01\x16wasi_snapshot_preview1\x09proc_exit\x00\x00\x03\x02\x01\x01\x05\x03\x01\x00\x01\x07\x13\x02\x06memory\x02\x00\x06_start\x00\x01\x0A\x19\x01\x17\x00A\x80\x10@\x00A\x10lA\xFF\x0F@\x00jA\x01@\x00j\x10\x00\x0B";

/// Makes bodies until one is refused, and exits with the last handle and the status added.
// (module
//  (import "fastly_http_body" "new" (func $new (param i32) (result i32)))
//  (import "wasi_snapshot_preview1" "proc_exit" (func $exit (param i32)))
//  (memory (export "memory") 1)
//  (func (export "_start") (local $status i32)
//   (loop
//    (br_if 0 (i32.eqz (local.tee $status (call $new (i32.const 0))))))
//   (call $exit (i32.add (i32.load (i32.const 0)) (local.get $status)))))
pub const TAKES_HANDLES: &[u8] =
    b"\x00asm\x01\x00\x00\x00\x01\x0D\x03`\x01\x7F\x01\x7F`\x01\x7F\x00`\x00\x00\x02;\x02\x10fastly_http_body\x03new\x00\x00\x16wasi_snapshot_preview1\x09proc_exit\x00\x01\x03\x02\x01\x02\x05\x03\x01\x00\x01\x07\x13\x02\x06memory\x02\x00\x06_start\x00\x02\x0A\x1C\x01\x1A\x01\x01\x7F\x03@A\x00\x10\x00\"\x00E\x0D\x00\x0BA\x00(\x02\x00 \x00j\x10\x01\x0B";

/// A segment begins at the end of the memory.
// (module (memory 1) (data (i32.const 65536) "x") (func (export "_start")))
pub const PAST_THE_END: &[u8] =
    b"\x00asm\x01\x00\x00\x00\x01\x04\x01`\x00\x00\x03\x02\x01\x00\x05\x03\x01\x00\x01\x07\x0A\x01\x06_start\x00\x00\x0A\x04\x01\x02\x00\x0B\x0B\x09\x01\x00A\x80\x80\x04\x0B\x01x";

/// Reads the monotonic clock to the place 8, and traps unless the status is 0 and the number there 42. It takes ten units.
// (module (import "wasi_snapshot_preview1" "clock_time_get" (func $clock (param i32 i64 i32) (result i32)))
//  (memory (export "memory") 1)
//  (func (export "_start")
//   (if (call $clock (i32.const 1) (i64.const 0) (i32.const 8)) (then unreachable))
//   (if (i64.ne (i64.load (i32.const 8)) (i64.const 42)) (then unreachable))))
pub const ASKS_A_CLOCK: &[u8] =
    b"\x00asm\x01\x00\x00\x00\x01\x0B\x02`\x03\x7F~\x7F\x01\x7F`\x00\x00\x02)\x01\x16wasi_snapshot_preview1\x0Eclock_time_get\x00\x00\x03\x02\x01\x01\x05\x03\x01\x00\x01\x07\x13\x02\x06memory\x02\x00\x06_start\x00\x01\x0A\x1C\x01\x1A\x00A\x01B\x00A\x08\x10\x00\x04@\x00\x0BA\x08)\x03\x00B*R\x04@\x00\x0B\x0B";

/// Calls on bodies, responses and the request, each answer compared: it exits with the number of the first that differs, else
/// with 0.
// (module
//  (import "fastly_abi" "init" (func $init (param i64) (result i32)))
//  (import "fastly_http_body" "new" (func $body_new (param i32) (result i32)))
//  (import "fastly_http_body" "known_length" (func $known (param i32 i32) (result i32)))
//  (import "fastly_http_resp" "new" (func $resp_new (param i32) (result i32)))
//  (import "fastly_http_resp" "status_set" (func $status_set (param i32 i32) (result i32)))
//  (import "fastly_http_resp" "status_get" (func $status_get (param i32 i32) (result i32)))
//  (import "fastly_http_req" "body_downstream_get" (func $downstream (param i32 i32) (result i32)))
//  (import "fastly_http_req" "method_get" (func $method (param i32 i32 i32 i32) (result i32)))
//  (import "fastly_http_req" "header_value_get" (func $value (param i32 i32 i32 i32 i32 i32) (result i32)))
//  (import "wasi_snapshot_preview1" "proc_exit" (func $exit (param i32)))
//  (memory (export "memory") 1)
//  (data (i32.const 256) "host")
//  (func $same (param i32 i32 i32)
//   (if (i32.ne (local.get 0) (local.get 1)) (then (call $exit (local.get 2)))))
//  (func (export "_start")
//   (call $same (call $init (i64.const 1)) (i32.const 0) (i32.const 1))
//   (call $same (call $init (i64.const 2)) (i32.const 5) (i32.const 2))
//   (call $same (call $body_new (i32.const 0)) (i32.const 0) (i32.const 3))
//   (call $same (call $known (i32.load (i32.const 0)) (i32.const 8)) (i32.const 0) (i32.const 4))
//   (call $same (i32.wrap_i64 (i64.load (i32.const 8))) (i32.const 0) (i32.const 5))
//   (call $same (call $known (i32.const 9) (i32.const 8)) (i32.const 3) (i32.const 6))
//   (call $same (call $resp_new (i32.const 4)) (i32.const 0) (i32.const 7))
//   (call $same (call $status_set (i32.load (i32.const 4)) (i32.const 404)) (i32.const 0) (i32.const 8))
//   (call $same (call $status_get (i32.load (i32.const 4)) (i32.const 16)) (i32.const 0) (i32.const 9))
//   (call $same (i32.load16_u (i32.const 16)) (i32.const 404) (i32.const 10))
//   (call $same (call $downstream (i32.const 20) (i32.const 24)) (i32.const 0) (i32.const 11))
//   (call $same (call $known (i32.load (i32.const 24)) (i32.const 8)) (i32.const 0) (i32.const 12))
//   (call $same (i32.wrap_i64 (i64.load (i32.const 8))) (i32.const 2) (i32.const 13))
//   (call $same (call $method (i32.load (i32.const 20)) (i32.const 128) (i32.const 64) (i32.const 28)) (i32.const 0) (i32.const 14))
//   (call $same (i32.load (i32.const 28)) (i32.const 4) (i32.const 15))
//   (call $same (i32.load (i32.const 128)) (i32.const 0x54534f50) (i32.const 16))
//   (call $same (call $value (i32.load (i32.const 20)) (i32.const 256) (i32.const 4) (i32.const 128) (i32.const 64) (i32.const 28)) (i32.const 0) (i32.const 17))
//   (call $same (i32.load (i32.const 28)) (i32.const 1) (i32.const 18))
//   (call $same (i32.load8_u (i32.const 128)) (i32.const 120) (i32.const 19))
//   (call $exit (i32.const 0))))
pub const CALLS: &[u8] =
    b"\x00asm\x01\x00\x00\x00\x010\x08`\x01~\x01\x7F`\x01\x7F\x01\x7F`\x02\x7F\x7F\x01\x7F`\x04\x7F\x7F\x7F\x7F\x01\x7F`\x06\x7F\x7F\x7F\x7F\x7F\x7F\x01\x7F`\x01\x7F\x00`\x03\x7F\x7F\x7F\x00`\x00\x00\x02\xA6\x02\x0A\x0Afastly_abi\x04init\x00\x00\x10fastly_http_body\x03new\x00\x01\x10fastly_http_body\x0Cknown_length\x00\x02\x10fastly_http_resp\x03new\x00\x01\x10fastly_http_resp\x0Astatus_set\x00\x02\x10fastly_http_resp\x0Astatus_get\x00\x02\x0Ffastly_http_req\x13body_downstream_get\x00\x02\x0Ffastly_http_req\x0Amethod_get\x00\x03\x0Ffastly_http_req\x10header_value_get\x00\x04\x16wasi_snapshot_preview1\x09proc_exit\x00\x05\x03\x03\x02\x06\x07\x05\x03\x01\x00\x01\x07\x13\x02\x06memory\x02\x00\x06_start\x00\x0B\x0A\x9B\x02\x02\x0E\x00 \x00 \x01G\x04@ \x02\x10\x09\x0B\x0B\x89\x02\x00B\x01\x10\x00A\x00A\x01\x10\x0AB\x02\x10\x00A\x05A\x02\x10\x0AA\x00\x10\x01A\x00A\x03\x10\x0AA\x00(\x02\x00A\x08\x10\x02A\x00A\x04\x10\x0AA\x08)\x03\x00\xA7A\x00A\x05\x10\x0AA\x09A\x08\x10\x02A\x03A\x06\x10\x0AA\x04\x10\x03A\x00A\x07\x10\x0AA\x04(\x02\x00A\x94\x03\x10\x04A\x00A\x08\x10\x0AA\x04(\x02\x00A\x10\x10\x05A\x00A\x09\x10\x0AA\x10/\x01\x00A\x94\x03A\x0A\x10\x0AA\x14A\x18\x10\x06A\x00A\x0B\x10\x0AA\x18(\x02\x00A\x08\x10\x02A\x00A\x0C\x10\x0AA\x08)\x03\x00\xA7A\x02A\x0D\x10\x0AA\x14(\x02\x00A\x80\x01A\xC0\x00A\x1C\x10\x07A\x00A\x0E\x10\x0AA\x1C(\x02\x00A\x04A\x0F\x10\x0AA\x80\x01(\x02\x00A\xD0\x9E\xCD\xA2\x05A\x10\x10\x0AA\x14(\x02\x00A\x80\x02A\x04A\x80\x01A\xC0\x00A\x1C\x10\x08A\x00A\x11\x10\x0AA\x1C(\x02\x00A\x01A\x12\x10\x0AA\x80\x01-\x00\x00A\xF8\x00A\x13\x10\x0AA\x00\x10\x09\x0B\x0B\x0B\x01\x00A\x80\x02\x0B\x04host";

/// Looks a key up, and makes an object under it; answers the client; logs a line; opens a dictionary that there isn't; takes a
/// random word, which is the first of ChaCha with 20 rounds for a seed of 32 bytes 7, in the stream 1. Each answer is compared,
/// where nothing is found: it exits with the number of the first that differs, else with 0.
// (module
//  (import "fastly_cache" "lookup" (func $lookup (param i32 i32 i32 i32 i32) (result i32)))
//  (import "fastly_cache" "get_state" (func $state (param i32 i32) (result i32)))
//  (import "fastly_cache" "close" (func $done (param i32) (result i32)))
//  (import "fastly_cache" "insert" (func $insert (param i32 i32 i32 i32 i32) (result i32)))
//  (import "fastly_http_body" "new" (func $body_new (param i32) (result i32)))
//  (import "fastly_http_body" "write" (func $write (param i32 i32 i32 i32 i32) (result i32)))
//  (import "fastly_http_body" "close" (func $close (param i32) (result i32)))
//  (import "fastly_http_resp" "new" (func $resp_new (param i32) (result i32)))
//  (import "fastly_http_resp" "send_downstream" (func $send (param i32 i32 i32) (result i32)))
//  (import "fastly_log" "endpoint_get" (func $endpoint (param i32 i32 i32) (result i32)))
//  (import "fastly_log" "write" (func $log (param i32 i32 i32 i32) (result i32)))
//  (import "fastly_dictionary" "open" (func $open (param i32 i32 i32) (result i32)))
//  (import "wasi_snapshot_preview1" "random_get" (func $random (param i32 i32) (result i32)))
//  (import "wasi_snapshot_preview1" "proc_exit" (func $exit (param i32)))
//  (memory (export "memory") 1)
//  (data (i32.const 256) "hello")
//  (func $same (param i32 i32 i32)
//   (if (i32.ne (local.get 0) (local.get 1)) (then (call $exit (local.get 2)))))
//  (func (export "_start")
//   (call $same (call $lookup (i32.const 256) (i32.const 5) (i32.const 0) (i32.const 64) (i32.const 0)) (i32.const 0) (i32.const 1))
//   (call $same (call $state (i32.load (i32.const 0)) (i32.const 4)) (i32.const 0) (i32.const 2))
//   (call $same (i32.load (i32.const 4)) (i32.const 0) (i32.const 3))
//   (call $same (call $done (i32.load (i32.const 0))) (i32.const 0) (i32.const 4))
//   (call $same (call $done (i32.load (i32.const 0))) (i32.const 3) (i32.const 5))
//   (call $same (call $insert (i32.const 256) (i32.const 5) (i32.const 0) (i32.const 64) (i32.const 8)) (i32.const 0) (i32.const 6))
//   (call $same (call $write (i32.load (i32.const 8)) (i32.const 256) (i32.const 5) (i32.const 0) (i32.const 12)) (i32.const 0) (i32.const 7))
//   (call $same (i32.load (i32.const 12)) (i32.const 5) (i32.const 8))
//   (call $same (call $close (i32.load (i32.const 8))) (i32.const 0) (i32.const 9))
//   (call $same (call $body_new (i32.const 16)) (i32.const 0) (i32.const 10))
//   (call $same (call $write (i32.load (i32.const 16)) (i32.const 256) (i32.const 5) (i32.const 0) (i32.const 12)) (i32.const 0) (i32.const 11))
//   (call $same (call $resp_new (i32.const 20)) (i32.const 0) (i32.const 12))
//   (call $same (call $send (i32.load (i32.const 20)) (i32.load (i32.const 16)) (i32.const 0)) (i32.const 0) (i32.const 13))
//   (call $same (call $endpoint (i32.const 256) (i32.const 5) (i32.const 24)) (i32.const 0) (i32.const 14))
//   (call $same (call $log (i32.load (i32.const 24)) (i32.const 256) (i32.const 5) (i32.const 28)) (i32.const 0) (i32.const 15))
//   (call $same (i32.load (i32.const 28)) (i32.const 5) (i32.const 16))
//   (call $same (call $open (i32.const 256) (i32.const 5) (i32.const 32)) (i32.const 3) (i32.const 17))
//   (call $same (call $random (i32.const 36) (i32.const 4)) (i32.const 0) (i32.const 18))
//   (call $same (i32.load (i32.const 36)) (i32.const 0x09737c6d) (i32.const 19))
//   (call $exit (i32.const 0))))
pub const USES_A_CACHE: &[u8] =
    b"\x00asm\x01\x00\x00\x00\x011\x08`\x05\x7F\x7F\x7F\x7F\x7F\x01\x7F`\x02\x7F\x7F\x01\x7F`\x01\x7F\x01\x7F`\x03\x7F\x7F\x7F\x01\x7F`\x04\x7F\x7F\x7F\x7F\x01\x7F`\x01\x7F\x00`\x03\x7F\x7F\x7F\x00`\x00\x00\x02\xEB\x02\x0E\x0Cfastly_cache\x06lookup\x00\x00\x0Cfastly_cache\x09get_state\x00\x01\x0Cfastly_cache\x05close\x00\x02\x0Cfastly_cache\x06insert\x00\x00\x10fastly_http_body\x03new\x00\x02\x10fastly_http_body\x05write\x00\x00\x10fastly_http_body\x05close\x00\x02\x10fastly_http_resp\x03new\x00\x02\x10fastly_http_resp\x0Fsend_downstream\x00\x03\x0Afastly_log\x0Cendpoint_get\x00\x03\x0Afastly_log\x05write\x00\x04\x11fastly_dictionary\x04open\x00\x03\x16wasi_snapshot_preview1\x0Arandom_get\x00\x01\x16wasi_snapshot_preview1\x09proc_exit\x00\x05\x03\x03\x02\x06\x07\x05\x03\x01\x00\x01\x07\x13\x02\x06memory\x02\x00\x06_start\x00\x0F\x0A\xB8\x02\x02\x0E\x00 \x00 \x01G\x04@ \x02\x10\x0D\x0B\x0B\xA6\x02\x00A\x80\x02A\x05A\x00A\xC0\x00A\x00\x10\x00A\x00A\x01\x10\x0EA\x00(\x02\x00A\x04\x10\x01A\x00A\x02\x10\x0EA\x04(\x02\x00A\x00A\x03\x10\x0EA\x00(\x02\x00\x10\x02A\x00A\x04\x10\x0EA\x00(\x02\x00\x10\x02A\x03A\x05\x10\x0EA\x80\x02A\x05A\x00A\xC0\x00A\x08\x10\x03A\x00A\x06\x10\x0EA\x08(\x02\x00A\x80\x02A\x05A\x00A\x0C\x10\x05A\x00A\x07\x10\x0EA\x0C(\x02\x00A\x05A\x08\x10\x0EA\x08(\x02\x00\x10\x06A\x00A\x09\x10\x0EA\x10\x10\x04A\x00A\x0A\x10\x0EA\x10(\x02\x00A\x80\x02A\x05A\x00A\x0C\x10\x05A\x00A\x0B\x10\x0EA\x14\x10\x07A\x00A\x0C\x10\x0EA\x14(\x02\x00A\x10(\x02\x00A\x00\x10\x08A\x00A\x0D\x10\x0EA\x80\x02A\x05A\x18\x10\x09A\x00A\x0E\x10\x0EA\x18(\x02\x00A\x80\x02A\x05A\x1C\x10\x0AA\x00A\x0F\x10\x0EA\x1C(\x02\x00A\x05A\x10\x10\x0EA\x80\x02A\x05A \x10\x0BA\x03A\x11\x10\x0EA$A\x04\x10\x0CA\x00A\x12\x10\x0EA$(\x02\x00A\xED\xF8\xCD\xCB\x00A\x13\x10\x0EA\x00\x10\x0D\x0B\x0B\x0C\x01\x00A\x80\x02\x0B\x05hello";
