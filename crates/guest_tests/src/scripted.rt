//! A guest that makes the calls which the body of its request asks for.

/// Reads its request's body: digits make a number, and each other byte is one thing to do, with that number.
///
/// | Byte | What is done |
/// |---|---|
/// | `m` `a` `s` `l` | the number is the maximal age, the initial age, the stale time or the length of what is inserted |
/// | `v` `u` `d` `z` | what is inserted varies by `accept-language`, has the surrogate key `s1`, has the metadata `m`; no options any more |
/// | `h` | lookups have the header `accept-language: de`, or with 1 `fr` |
/// | `L` `T` `I` | looks `k` up, looks it up in a transaction, inserts under it |
/// | `J` `U` `X` `C` | inserts, updates, cancels by the last lookup, and closes it |
/// | `G` `B` | the last lookup's state; its body |
/// | `W` `F` `A` | writes to what was inserted, from one digit's place in `abcdhi` as many bytes as the second digit says; finishes it; abandons it |
/// | `R` | reads at most so many bytes of a hit's body |
/// | `P` `p` | purges `s1`, hard and soft |
/// | `D` | answers `hi`, whole, or with 1 streamed |
/// | `K` | reads the monotonic clock |
/// | `c` `i` | the handle of the last lookup, or of what was inserted, is this number |
/// | `E` `Z` `S` | exits with the number, traps, loops without end |
/// | `=` | what the last call said is this number: its status, the state, the count of bytes read, the reading; where a state or a read has another status than 0, 100 more than that. Else it exits with the place of this byte, from 1 |
// (module
//  (import "fastly_http_req" "body_downstream_get" (func $downstream (param i32 i32) (result i32)))
//  (import "fastly_http_req" "new" (func $request_new (param i32) (result i32)))
//  (import "fastly_http_req" "header_insert" (func $header (param i32 i32 i32 i32 i32) (result i32)))
//  (import "fastly_http_resp" "new" (func $response_new (param i32) (result i32)))
//  (import "fastly_http_resp" "send_downstream" (func $send (param i32 i32 i32) (result i32)))
//  (import "fastly_http_body" "new" (func $body_new (param i32) (result i32)))
//  (import "fastly_http_body" "read" (func $read (param i32 i32 i32 i32) (result i32)))
//  (import "fastly_http_body" "write" (func $write (param i32 i32 i32 i32 i32) (result i32)))
//  (import "fastly_http_body" "close" (func $finish (param i32) (result i32)))
//  (import "fastly_http_body" "abandon" (func $abandon (param i32) (result i32)))
//  (import "fastly_cache" "lookup" (func $lookup (param i32 i32 i32 i32 i32) (result i32)))
//  (import "fastly_cache" "insert" (func $insert (param i32 i32 i32 i32 i32) (result i32)))
//  (import "fastly_cache" "transaction_lookup" (func $tx_lookup (param i32 i32 i32 i32 i32) (result i32)))
//  (import "fastly_cache" "transaction_insert" (func $tx_insert (param i32 i32 i32 i32) (result i32)))
//  (import "fastly_cache" "transaction_update" (func $tx_update (param i32 i32 i32) (result i32)))
//  (import "fastly_cache" "transaction_cancel" (func $tx_cancel (param i32) (result i32)))
//  (import "fastly_cache" "close" (func $close (param i32) (result i32)))
//  (import "fastly_cache" "get_state" (func $state (param i32 i32) (result i32)))
//  (import "fastly_cache" "get_body" (func $body_of (param i32 i32 i32 i32) (result i32)))
//  (import "fastly_purge" "purge_surrogate_key" (func $purge (param i32 i32 i32 i32) (result i32)))
//  (import "wasi_snapshot_preview1" "clock_time_get" (func $clock (param i32 i64 i32) (result i32)))
//  (import "wasi_snapshot_preview1" "proc_exit" (func $exit (param i32)))
//  (memory (export "memory") 1)
//  (data (i32.const 256) "kabcdhis1maccept-languagedefr")
//  (func $is (param $op i32) (param $letter i32) (result i32) (i32.eq (local.get $op) (local.get $letter)))
//  (func (export "_start")
//   (local $at i32) (local $end i32) (local $op i32) (local $said i32) (local $number i64)
//   (local $mask i32) (local $headers i32)
//   (drop (call $downstream (i32.const 0) (i32.const 4)))
//   (drop (call $read (i32.load (i32.const 4)) (i32.const 1024) (i32.const 1000) (i32.const 8)))
//   (local.set $at (i32.const 1024))
//   (local.set $end (i32.add (i32.const 1024) (i32.load (i32.const 8))))
//   (loop $next
//    (if (i32.eq (local.get $at) (local.get $end)) (then (return)))
//    (local.set $op (i32.load8_u (local.get $at)))
//    (local.set $at (i32.add (local.get $at) (i32.const 1)))
//    (if (i32.lt_u (i32.sub (local.get $op) (i32.const 48)) (i32.const 10))
//     (then
//      (local.set $number (i64.add (i64.mul (local.get $number) (i64.const 10))
//       (i64.extend_i32_u (i32.sub (local.get $op) (i32.const 48)))))
//      (br $next)))
//    ;; = : what the last call said is this number, or the guest exits with the place of this sign
//    (if (call $is (local.get $op) (i32.const 61))
//     (then (if (i32.ne (local.get $said) (i32.wrap_i64 (local.get $number)))
//      (then (call $exit (i32.sub (local.get $at) (i32.const 1024)))))))
//    ;; m a s l v u d : terms of an insertion; z: no options
//    (if (call $is (local.get $op) (i32.const 109)) (then (i64.store (i32.const 64) (local.get $number))))
//    (if (call $is (local.get $op) (i32.const 97))
//     (then (i64.store (i32.const 88) (local.get $number)) (local.set $mask (i32.or (local.get $mask) (i32.const 8)))))
//    (if (call $is (local.get $op) (i32.const 115))
//     (then (i64.store (i32.const 96) (local.get $number)) (local.set $mask (i32.or (local.get $mask) (i32.const 16)))))
//    (if (call $is (local.get $op) (i32.const 108))
//     (then (i64.store (i32.const 112) (local.get $number)) (local.set $mask (i32.or (local.get $mask) (i32.const 64)))))
//    (if (call $is (local.get $op) (i32.const 118))
//     (then (i32.store (i32.const 76) (i32.const 266)) (i32.store (i32.const 80) (i32.const 15))
//      (local.set $mask (i32.or (local.get $mask) (i32.const 4)))))
//    (if (call $is (local.get $op) (i32.const 117))
//     (then (i32.store (i32.const 104) (i32.const 263)) (i32.store (i32.const 108) (i32.const 2))
//      (local.set $mask (i32.or (local.get $mask) (i32.const 32)))))
//    (if (call $is (local.get $op) (i32.const 100))
//     (then (i32.store (i32.const 120) (i32.const 265)) (i32.store (i32.const 124) (i32.const 1))
//      (local.set $mask (i32.or (local.get $mask) (i32.const 128)))))
//    (if (call $is (local.get $op) (i32.const 122)) (then (local.set $mask (i32.const 0))))
//    ;; h : lookups are made with the header accept-language: de, or with 1 fr
//    (if (call $is (local.get $op) (i32.const 104))
//     (then
//      (drop (call $request_new (i32.const 140)))
//      (local.set $said (call $header (i32.load (i32.const 140)) (i32.const 266) (i32.const 15)
//       (i32.add (i32.const 281) (i32.mul (i32.wrap_i64 (local.get $number)) (i32.const 2))) (i32.const 2)))
//      (local.set $headers (i32.const 2))))
//    ;; c i : the numbers of the handles that are used
//    (if (call $is (local.get $op) (i32.const 99)) (then (i64.store32 (i32.const 128) (local.get $number))))
//    (if (call $is (local.get $op) (i32.const 105)) (then (i64.store32 (i32.const 132) (local.get $number))))
//    ;; L T I J U X C G B : of the cache
//    (if (call $is (local.get $op) (i32.const 76))
//     (then (local.set $said (call $lookup (i32.const 256) (i32.const 1) (local.get $headers) (i32.const 140) (i32.const 128)))))
//    (if (call $is (local.get $op) (i32.const 84))
//     (then (local.set $said (call $tx_lookup (i32.const 256) (i32.const 1) (local.get $headers) (i32.const 140) (i32.const 128)))))
//    (if (call $is (local.get $op) (i32.const 73))
//     (then (local.set $said (call $insert (i32.const 256) (i32.const 1) (local.get $mask) (i32.const 64) (i32.const 132)))))
//    (if (call $is (local.get $op) (i32.const 74))
//     (then (local.set $said (call $tx_insert (i32.load (i32.const 128)) (local.get $mask) (i32.const 64) (i32.const 132)))))
//    (if (call $is (local.get $op) (i32.const 85))
//     (then (local.set $said (call $tx_update (i32.load (i32.const 128)) (local.get $mask) (i32.const 64)))))
//    (if (call $is (local.get $op) (i32.const 88)) (then (local.set $said (call $tx_cancel (i32.load (i32.const 128))))))
//    (if (call $is (local.get $op) (i32.const 67)) (then (local.set $said (call $close (i32.load (i32.const 128))))))
//    (if (call $is (local.get $op) (i32.const 71))
//     (then
//      (local.set $said (i32.add (i32.const 100) (call $state (i32.load (i32.const 128)) (i32.const 144))))
//      (if (i32.eq (local.get $said) (i32.const 100)) (then (local.set $said (i32.load (i32.const 144)))))))
//    (if (call $is (local.get $op) (i32.const 66))
//     (then (local.set $said (call $body_of (i32.load (i32.const 128)) (i32.const 0) (i32.const 0) (i32.const 136)))))
//    ;; W F A : of the body of an insertion; W has a place and a length of one digit each
//    (if (call $is (local.get $op) (i32.const 87))
//     (then (local.set $said (call $write (i32.load (i32.const 132))
//      (i32.add (i32.const 257) (i32.div_u (i32.wrap_i64 (local.get $number)) (i32.const 10)))
//      (i32.rem_u (i32.wrap_i64 (local.get $number)) (i32.const 10)) (i32.const 0) (i32.const 8)))))
//    (if (call $is (local.get $op) (i32.const 70)) (then (local.set $said (call $finish (i32.load (i32.const 132))))))
//    (if (call $is (local.get $op) (i32.const 65)) (then (local.set $said (call $abandon (i32.load (i32.const 132))))))
//    ;; R : reads at most so many bytes of a hit, and says how many there were, or 100 and the status
//    (if (call $is (local.get $op) (i32.const 82))
//     (then
//      (local.set $said (i32.add (i32.const 100)
//       (call $read (i32.load (i32.const 136)) (i32.const 512) (i32.wrap_i64 (local.get $number)) (i32.const 8))))
//      (if (i32.eq (local.get $said) (i32.const 100)) (then (local.set $said (i32.load (i32.const 8)))))))
//    ;; P p : purges, hard and soft
//    (if (call $is (local.get $op) (i32.const 80))
//     (then (local.set $said (call $purge (i32.const 263) (i32.const 2) (i32.const 0) (i32.const 0)))))
//    (if (call $is (local.get $op) (i32.const 112))
//     (then (local.set $said (call $purge (i32.const 263) (i32.const 2) (i32.const 1) (i32.const 0)))))
//    ;; D : answers "hi", whole, or with 1 streamed
//    (if (call $is (local.get $op) (i32.const 68))
//     (then
//      (drop (call $response_new (i32.const 148)))
//      (drop (call $body_new (i32.const 152)))
//      (if (i64.eqz (local.get $number))
//       (then
//        (drop (call $write (i32.load (i32.const 152)) (i32.const 261) (i32.const 2) (i32.const 0) (i32.const 8)))
//        (local.set $said (call $send (i32.load (i32.const 148)) (i32.load (i32.const 152)) (i32.const 0))))
//       (else
//        (drop (call $send (i32.load (i32.const 148)) (i32.load (i32.const 152)) (i32.const 1)))
//        (drop (call $write (i32.load (i32.const 152)) (i32.const 261) (i32.const 2) (i32.const 0) (i32.const 8)))
//        (local.set $said (call $finish (i32.load (i32.const 152))))))))
//    ;; K : says what the clock reads
//    (if (call $is (local.get $op) (i32.const 75))
//     (then
//      (drop (call $clock (i32.const 1) (i64.const 0) (i32.const 160)))
//      (local.set $said (i32.load (i32.const 160)))))
//    ;; E Z S : exits, traps, loops
//    (if (call $is (local.get $op) (i32.const 69)) (then (call $exit (i32.wrap_i64 (local.get $number)))))
//    (if (call $is (local.get $op) (i32.const 90)) (then (unreachable)))
//    (if (call $is (local.get $op) (i32.const 83)) (then (loop $round (br $round))))
//    (local.set $number (i64.const 0))
//    (br $next))))
pub const SCRIPTED: &[u8] =
    b"\x00asm\x01\x00\x00\x00\x012\x08`\x02\x7F\x7F\x01\x7F`\x01\x7F\x01\x7F`\x05\x7F\x7F\x7F\x7F\x7F\x01\x7F`\x03\x7F\x7F\x7F\x01\x7F`\x04\x7F\x7F\x7F\x7F\x01\x7F`\x03\x7F~\x7F\x01\x7F`\x01\x7F\x00`\x00\x00\x02\xFB\x04\x16\x0Ffastly_http_req\x13body_downstream_get\x00\x00\x0Ffastly_http_req\x03new\x00\x01\x0Ffastly_http_req\x0Dheader_insert\x00\x02\x10fastly_http_resp\x03new\x00\x01\x10fastly_http_resp\x0Fsend_downstream\x00\x03\x10fastly_http_body\x03new\x00\x01\x10fastly_http_body\x04read\x00\x04\x10fastly_http_body\x05write\x00\x02\x10fastly_http_body\x05close\x00\x01\x10fastly_http_body\x07abandon\x00\x01\x0Cfastly_cache\x06lookup\x00\x02\x0Cfastly_cache\x06insert\x00\x02\x0Cfastly_cache\x12transaction_lookup\x00\x02\x0Cfastly_cache\x12transaction_insert\x00\x04\x0Cfastly_cache\x12transaction_update\x00\x03\x0Cfastly_cache\x12transaction_cancel\x00\x01\x0Cfastly_cache\x05close\x00\x01\x0Cfastly_cache\x09get_state\x00\x00\x0Cfastly_cache\x08get_body\x00\x04\x0Cfastly_purge\x13purge_surrogate_key\x00\x04\x16wasi_snapshot_preview1\x0Eclock_time_get\x00\x05\x16wasi_snapshot_preview1\x09proc_exit\x00\x06\x03\x03\x02\x00\x07\x05\x03\x01\x00\x01\x07\x13\x02\x06memory\x02\x00\x06_start\x00\x17\x0A\x8B\x08\x02\x07\x00 \x00 \x01F\x0B\x80\x08\x03\x04\x7F\x01~\x02\x7FA\x00A\x04\x10\x00\x1AA\x04(\x02\x00A\x80\x08A\xE8\x07A\x08\x10\x06\x1AA\x80\x08!\x00A\x80\x08A\x08(\x02\x00j!\x01\x03@ \x00 \x01F\x04@\x0F\x0B \x00-\x00\x00!\x02 \x00A\x01j!\x00 \x02A0kA\x0AI\x04@ \x04B\x0A~ \x02A0k\xAD|!\x04\x0C\x01\x0B \x02A=\x10\x16\x04@ \x03 \x04\xA7G\x04@ \x00A\x80\x08k\x10\x15\x0B\x0B \x02A\xED\x00\x10\x16\x04@A\xC0\x00 \x047\x03\x00\x0B \x02A\xE1\x00\x10\x16\x04@A\xD8\x00 \x047\x03\x00 \x05A\x08r!\x05\x0B \x02A\xF3\x00\x10\x16\x04@A\xE0\x00 \x047\x03\x00 \x05A\x10r!\x05\x0B \x02A\xEC\x00\x10\x16\x04@A\xF0\x00 \x047\x03\x00 \x05A\xC0\x00r!\x05\x0B \x02A\xF6\x00\x10\x16\x04@A\xCC\x00A\x8A\x026\x02\x00A\xD0\x00A\x0F6\x02\x00 \x05A\x04r!\x05\x0B \x02A\xF5\x00\x10\x16\x04@A\xE8\x00A\x87\x026\x02\x00A\xEC\x00A\x026\x02\x00 \x05A r!\x05\x0B \x02A\xE4\x00\x10\x16\x04@A\xF8\x00A\x89\x026\x02\x00A\xFC\x00A\x016\x02\x00 \x05A\x80\x01r!\x05\x0B \x02A\xFA\x00\x10\x16\x04@A\x00!\x05\x0B \x02A\xE8\x00\x10\x16\x04@A\x8C\x01\x10\x01\x1AA\x8C\x01(\x02\x00A\x8A\x02A\x0FA\x99\x02 \x04\xA7A\x02ljA\x02\x10\x02!\x03A\x02!\x06\x0B \x02A\xE3\x00\x10\x16\x04@A\x80\x01 \x04>\x02\x00\x0B \x02A\xE9\x00\x10\x16\x04@A\x84\x01 \x04>\x02\x00\x0B \x02A\xCC\x00\x10\x16\x04@A\x80\x02A\x01 \x06A\x8C\x01A\x80\x01\x10\x0A!\x03\x0B \x02A\xD4\x00\x10\x16\x04@A\x80\x02A\x01 \x06A\x8C\x01A\x80\x01\x10\x0C!\x03\x0B \x02A\xC9\x00\x10\x16\x04@A\x80\x02A\x01 \x05A\xC0\x00A\x84\x01\x10\x0B!\x03\x0B \x02A\xCA\x00\x10\x16\x04@A\x80\x01(\x02\x00 \x05A\xC0\x00A\x84\x01\x10\x0D!\x03\x0B \x02A\xD5\x00\x10\x16\x04@A\x80\x01(\x02\x00 \x05A\xC0\x00\x10\x0E!\x03\x0B \x02A\xD8\x00\x10\x16\x04@A\x80\x01(\x02\x00\x10\x0F!\x03\x0B \x02A\xC3\x00\x10\x16\x04@A\x80\x01(\x02\x00\x10\x10!\x03\x0B \x02A\xC7\x00\x10\x16\x04@A\xE4\x00A\x80\x01(\x02\x00A\x90\x01\x10\x11j!\x03 \x03A\xE4\x00F\x04@A\x90\x01(\x02\x00!\x03\x0B\x0B \x02A\xC2\x00\x10\x16\x04@A\x80\x01(\x02\x00A\x00A\x00A\x88\x01\x10\x12!\x03\x0B \x02A\xD7\x00\x10\x16\x04@A\x84\x01(\x02\x00A\x81\x02 \x04\xA7A\x0Anj \x04\xA7A\x0ApA\x00A\x08\x10\x07!\x03\x0B \x02A\xC6\x00\x10\x16\x04@A\x84\x01(\x02\x00\x10\x08!\x03\x0B \x02A\xC1\x00\x10\x16\x04@A\x84\x01(\x02\x00\x10\x09!\x03\x0B \x02A\xD2\x00\x10\x16\x04@A\xE4\x00A\x88\x01(\x02\x00A\x80\x04 \x04\xA7A\x08\x10\x06j!\x03 \x03A\xE4\x00F\x04@A\x08(\x02\x00!\x03\x0B\x0B \x02A\xD0\x00\x10\x16\x04@A\x87\x02A\x02A\x00A\x00\x10\x13!\x03\x0B \x02A\xF0\x00\x10\x16\x04@A\x87\x02A\x02A\x01A\x00\x10\x13!\x03\x0B \x02A\xC4\x00\x10\x16\x04@A\x94\x01\x10\x03\x1AA\x98\x01\x10\x05\x1A \x04P\x04@A\x98\x01(\x02\x00A\x85\x02A\x02A\x00A\x08\x10\x07\x1AA\x94\x01(\x02\x00A\x98\x01(\x02\x00A\x00\x10\x04!\x03\x05A\x94\x01(\x02\x00A\x98\x01(\x02\x00A\x01\x10\x04\x1AA\x98\x01(\x02\x00A\x85\x02A\x02A\x00A\x08\x10\x07\x1AA\x98\x01(\x02\x00\x10\x08!\x03\x0B\x0B \x02A\xCB\x00\x10\x16\x04@A\x01B\x00A\xA0\x01\x10\x14\x1AA\xA0\x01(\x02\x00!\x03\x0B \x02A\xC5\x00\x10\x16\x04@ \x04\xA7\x10\x15\x0B \x02A\xDA\x00\x10\x16\x04@\x00\x0B \x02A\xD3\x00\x10\x16\x04@\x03@\x0C\x00\x0B\x0BB\x00!\x04\x0C\x00\x0B\x0B\x0B$\x01\x00A\x80\x02\x0B\x1Dkabcdhis1maccept-languagedefr";
