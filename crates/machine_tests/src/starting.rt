//! What a module starts with. Each module was written by wat2wasm of wabt from the text that stands before it.

use std::alloc::Global;
use std::test::Fail;
use wasm_instance::{Begun, NewFault, start};
use wasm_reader::read_module;
use wasm_types::Value;

// (module (func $a) (func $b) (table 4 funcref) (memory 1 3) (global i32 (i32.const 7)) (global (mut i64) (i64.const -1))
//  (elem (i32.const 1) $b $a) (elem (i32.const 2) $b) (data (i32.const 65534) "xy") (data (i32.const 65535) "z"))
const WHOLE: &[u8] =
    b"\0asm\x01\0\0\0\x01\x04\x01`\0\0\x03\x03\x02\0\0\x04\x04\x01p\0\x04\x05\x04\x01\x01\x01\x03\x06\x0B\x02\x7F\0A\x07\x0B~\x01B\x7F\x0B\x09\x0E\x02\0A\x01\x0B\x02\x01\0\0A\x02\x0B\x01\x01\x0A\x07\x02\x02\0\x0B\x02\0\x0B\x0B\x12\x02\0A\xFE\xFF\x03\x0B\x02xy\0A\xFF\xFF\x03\x0B\x01z";

// (module (func $a) (table 2 funcref) (elem (i32.const 2) $a))
const PAST_THE_TABLE: &[u8] =
    b"\0asm\x01\0\0\0\x01\x04\x01`\0\0\x03\x02\x01\0\x04\x04\x01p\0\x02\x09\x07\x01\0A\x02\x0B\x01\0\x0A\x04\x01\x02\0\x0B";

// (module (memory 1) (data (i32.const 65535) "xy"))
const PAST_THE_MEMORY: &[u8] =
    b"\0asm\x01\0\0\0\x05\x03\x01\0\x01\x0B\x0A\x01\0A\xFF\xFF\x03\x0B\x02xy";

// (module (memory 0) (data (i32.const 1) ""))
const EMPTY_PAST_THE_END: &[u8] = b"\0asm\x01\0\0\0\x05\x03\x01\0\0\x0B\x06\x01\0A\x01\x0B\0";

// (module (memory 0) (data (i32.const 0) ""))
const EMPTY_AT_THE_END: &[u8] = b"\0asm\x01\0\0\0\x05\x03\x01\0\0\x0B\x06\x01\0A\0\x0B\0";

// What it starts with, or why it doesn't.
fn begun(alloc: Global, bytes: &[u8]) -> Result<Begun, &'static str> {
    match read_module(alloc, bytes) {
        Ok(module) => match start(alloc, &module) {
            Ok(begun) => Ok(begun),
            Err(NewFault::Segment) => Err("segment"),
            Err(NewFault::OutOfMemory) => Err("out of memory"),
        },
        Err(_) => Err("not read"),
    }
}

fn word(bytes: &[u8], alloc: Global) -> &'static str {
    match begun(alloc, bytes) {
        Ok(_) => "starts",
        Err(why) => why,
    }
}

// What stands in globals, table and memory. A later segment writes over an earlier one.
fn is_whole(begun: &Begun) -> bool {
    let table = matches!(begun.table.as_slice(), [None, Some(1), Some(1), None]);
    let globals = matches!(begun.globals.get(0), Ok(Value::I32(7)))
        && matches!(begun.globals.get(1), Ok(Value::I64(0xffff_ffff_ffff_ffff)));
    let memory = match &begun.memory {
        Some(memory) => {
            memory.pages() == 1 && matches!(memory.part(65533, 3), Some([0, b'x', b'z']))
        }
        None => false,
    };
    table && globals && memory
}

#[test]
fn starts(rt: HostRuntime) -> Result<(), Fail> {
    assert!(rt; matches!(begun(rt.alloc(), WHOLE), Ok(begun) if is_whole(&begun)));
    assert_eq!(rt; word(PAST_THE_TABLE, rt.alloc()), "segment");
    assert_eq!(rt; word(PAST_THE_MEMORY, rt.alloc()), "segment");
    assert_eq!(rt; word(EMPTY_PAST_THE_END, rt.alloc()), "segment");
    assert_eq!(rt; word(EMPTY_AT_THE_END, rt.alloc()), "starts");
    Ok(())
}
