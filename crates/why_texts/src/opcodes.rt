//! The opcodes that came after WebAssembly 1.0, by proposal, and those of floating point.

/// What a byte is, and how a compiler is kept from it.
pub fn later_opcode(byte: u8, second: u8) -> (&'static str, &'static str) {
    match byte {
        0x06..=0x0a | 0x18 | 0x19 | 0x1f => ("an instruction of exceptions", "-fno-exceptions"),
        0x12 | 0x13 => ("a tail call", "-mno-tail-call"),
        0x14 | 0x15 => ("a call through a reference", "-mcpu=mvp"),
        0x1c => (
            "a select with a type (reference types)",
            "-mcpu=mvp or -mno-reference-types",
        ),
        0x25 | 0x26 => (
            "table.get or table.set (reference types)",
            "-mcpu=mvp or -mno-reference-types",
        ),
        0xc0 => (
            "i32.extend8_s (sign extension)",
            "-mcpu=mvp or -mno-sign-ext",
        ),
        0xc1 => (
            "i32.extend16_s (sign extension)",
            "-mcpu=mvp or -mno-sign-ext",
        ),
        0xc2 => (
            "i64.extend8_s (sign extension)",
            "-mcpu=mvp or -mno-sign-ext",
        ),
        0xc3 => (
            "i64.extend16_s (sign extension)",
            "-mcpu=mvp or -mno-sign-ext",
        ),
        0xc4 => (
            "i64.extend32_s (sign extension)",
            "-mcpu=mvp or -mno-sign-ext",
        ),
        0xd0..=0xd6 => (
            "an instruction on references",
            "-mcpu=mvp or -mno-reference-types",
        ),
        0xfb => (
            "an instruction of garbage collection",
            "a compiler for linear memory",
        ),
        0xfc => prefixed(second),
        0xfd => ("a vector instruction (SIMD)", "-mcpu=mvp or -mno-simd128"),
        0xfe => (
            "an atomic instruction (threads)",
            "-mno-atomics, and no -pthread",
        ),
        _ => (
            "no instruction that WebAssembly has",
            "is the file damaged?",
        ),
    }
}

/// The instructions behind the byte FC.
fn prefixed(second: u8) -> (&'static str, &'static str) {
    match second {
        0..=7 => (
            "a cut of a float to an integer (nontrapping conversions)",
            "-mcpu=mvp, and no floats",
        ),
        8 => ("memory.init (bulk memory)", "-mcpu=mvp or -mno-bulk-memory"),
        9 => ("data.drop (bulk memory)", "-mcpu=mvp or -mno-bulk-memory"),
        10 => ("memory.copy (bulk memory)", "-mcpu=mvp or -mno-bulk-memory"),
        11 => ("memory.fill (bulk memory)", "-mcpu=mvp or -mno-bulk-memory"),
        12..=14 => (
            "an instruction on tables (bulk memory)",
            "-mcpu=mvp or -mno-bulk-memory",
        ),
        _ => (
            "an instruction on tables (reference types)",
            "-mcpu=mvp or -mno-reference-types",
        ),
    }
}

/// What a byte of floating point is.
pub fn float_name(byte: u8) -> &'static str {
    match byte {
        0x2a => "f32.load",
        0x2b => "f64.load",
        0x38 => "f32.store",
        0x39 => "f64.store",
        0x43 => "f32.const",
        0x44 => "f64.const",
        0x5b..=0x66 => "a comparison of floats",
        0x7c => "the type f64",
        0x7d => "the type f32",
        0x8b..=0x98 => "arithmetic of f32",
        0x99..=0xa6 => "arithmetic of f64",
        _ => "a conversion from or to a float",
    }
}

/// The types and flags that later proposals put where version 1.0 has others.
pub fn later_form(byte: u8) -> &'static str {
    match byte {
        0x7b => "the type v128 (SIMD): compile with -mcpu=mvp or -mno-simd128",
        0x6f =>
            "the type externref (reference types): compile with -mcpu=mvp or -mno-reference-types",
        0x70 =>
            "the type funcref where a number's type is wanted (reference types): compile with -mcpu=mvp",
        0x02 | 0x03 =>
            "the flag of a shared memory (threads), or an import or export of a kind that can't stand here: compile without -pthread and with -mno-atomics",
        0x04..=0x07 =>
            "the flag of a memory of 64 bits, or a tag of exceptions: compile for wasm32 with -mcpu=mvp and -fno-exceptions",
        _ => "none of the bytes that can stand there in version 1.0",
    }
}
