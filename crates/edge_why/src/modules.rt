//! What is wrong with a module: the bytes, what they spell, or what it imports and exports.

use crate::links::link_hint;
use edge_modules::{ModuleFault, Stopped, load};
use std::alloc::AllocError;
use std::fmt::Write;
use wasm_code::{ReadFault, ReadKind};
use wasm_validate::{Part, ValidFault, ValidKind};
use why_texts::{
    float_name, function_of, has_custom, instruction_at, is_settings, later_form, later_opcode,
    leb_at, section_name, section_of, show_number,
};

/// A file that is no core module at all; told by its first bytes.
fn other_file(bytes: &[u8]) -> Option<&'static str> {
    if bytes.is_empty() {
        return Some("the file is empty");
    }
    if bytes.starts_with(b"\0asm\x0d\0\x01\0") {
        return Some(
            "this is a component, not a module: build a core module (in Rust the target wasm32-wasip1, not wasip2), or take it out with `wasm-tools component unbundle`",
        );
    }
    if bytes.starts_with(b"(module")
        || bytes.starts_with(b";;")
        || bytes.starts_with(b"(component")
    {
        return Some("this is WebAssembly as text, not a module: make one with `wat2wasm FILE`");
    }
    if bytes.starts_with(b"edge-run ") {
        return Some("this is a run file: `./edge script` runs it");
    }
    if bytes.starts_with(b"edge-play ") {
        return Some(
            "this is a play file, not a module: `./edge play` takes its files in the order MODULE SETTINGS RUN",
        );
    }
    if bytes.starts_with(b"edge-journal ") {
        return Some(
            "this is a journal, what `./edge script` and `./edge play` write, not a module",
        );
    }
    if is_settings(bytes) {
        return Some(
            "these are settings, not a module: `./edge play` takes its files in the order MODULE SETTINGS RUN",
        );
    }
    if bytes.starts_with(b"\x1f\x8b") || bytes.starts_with(b"PK") {
        return Some("the file is packed (gzip or zip); unpack it first");
    }
    if bytes.starts_with(b"\x7fELF") {
        return Some(
            "this is a program or object file for this machine, not for WebAssembly: compile with --target=wasm32",
        );
    }
    None
}

/// The place in decimal and hexadecimal, its section, and its function.
fn show_place(out: &mut String, bytes: &[u8], place: usize) -> Result<(), AllocError> {
    write!(out, "byte {place} (0x{place:x})")?;
    if let Some((function, _)) = function_of(bytes, place) {
        return write!(
            out,
            ", in the code of function {function} (imported ones counted)"
        );
    }
    match section_of(bytes, place) {
        None => Ok(()),
        Some(section) => {
            let number = section.number;
            let name = section_name(number);
            write!(out, ", in section {number} ({name})")
        }
    }
}

/// What is counted at a place of this section, and how many there can be.
fn limit_of(section: u8, count: u64) -> (&'static str, &'static str) {
    match section {
        1 if count <= 65_536 => ("results of a function", "1 (-mno-multivalue)"),
        1 => ("types", "65,536"),
        3 => ("functions", "65,536"),
        4 => ("entries of a table", "65,536"),
        5 if count <= 65_536 => (
            "pages of memory, of 65,536 bytes each",
            "2,048 (static data, stack and --initial-memory count)",
        ),
        5 => ("pages of memory at most", "65,536"),
        6 => ("globals", "4,096"),
        10 if count <= 65_536 => (
            "locals in this group",
            "4,096 in a function, its parameters counted",
        ),
        10 => (
            "functions, locals, or labels of a br_table",
            "65,536 (4,096 locals)",
        ),
        _ => ("of these", "65,536"),
    }
}

fn too_large(out: &mut String, bytes: &[u8], place: usize) -> Result<(), AllocError> {
    if bytes.len() > 16_777_216 {
        return out.push_str(
            "the file has more than 16,777,216 bytes, which is the most that a module can have",
        );
    }
    show_place(out, bytes, place)?;
    let number = match section_of(bytes, place) {
        Some(section) => section.number,
        None => 0,
    };
    let count = match leb_at(bytes, place) {
        Some((count, _)) => count,
        None => 0,
    };
    let (what, most) = limit_of(number, count);
    out.push_str(": there are ")?;
    show_number(out, count)?;
    write!(out, " {what}; there can be {most}")
}

/// A section that stands where it can't.
fn out_of_order(out: &mut String, bytes: &[u8], place: usize, byte: u8) -> Result<(), AllocError> {
    if has_custom(bytes, b"linking") {
        return out.push_str(
            "this is an object file of a compiler, not a whole module: link it first, with wasm-ld or by leaving out `-c`",
        );
    }
    if byte == 10 && place.saturating_add(1) == bytes.len() {
        return out.push_str(
            "a line feed stands behind the module; an editor or a shell put it there: `head -c -1 OLD > NEW`",
        );
    }
    show_place(out, bytes, place)?;
    if byte > 11 {
        return write!(
            out,
            ": a section with the number {byte}, which version 1.0 doesn't have (12 is of bulk memory, 13 of exceptions), or bytes behind the module: compile with -mcpu=mvp"
        );
    }
    let name = section_name(byte);
    write!(
        out,
        ": the section {byte} ({name}) stands twice or behind a later one; or the file has bytes behind the module"
    )
}

/// What the kinds of reading faults mean, where the bytes add nothing.
fn plain_words(kind: ReadKind) -> &'static str {
    match kind {
        ReadKind::Truncated =>
            "the file ends here, in the middle of something: was it cut off when it was copied?",
        ReadKind::BadMagic =>
            "this is no WebAssembly module: one begins with the bytes 00 61 73 6D",
        ReadKind::BadVersion =>
            "a module of this format has the version 1 (01 00 00 00 behind the first four bytes)",
        ReadKind::SectionSize =>
            "a section or body is longer or shorter than its size says: the file is damaged, or its maker has a fault",
        ReadKind::BadLeb =>
            "a number has too many bytes (LEB128): the file is damaged, or its maker has a fault",
        ReadKind::BadName => "a name isn't UTF-8",
        ReadKind::NestedTooDeep =>
            "here begins a block inside 1,024 others, more than this host takes",
        ReadKind::CountMismatch =>
            "there are more or fewer function bodies than functions: the file is damaged",
        _ => "",
    }
}

fn read_hint(out: &mut String, bytes: &[u8], fault: ReadFault) -> Result<(), AllocError> {
    if let Some(hint) = other_file(bytes) {
        return out.push_str(hint);
    }
    let place = fault.place as usize;
    let byte = bytes.get(place).copied().unwrap_or(0);
    match fault.kind {
        ReadKind::TooLarge => too_large(out, bytes, place),
        ReadKind::SectionOrder => out_of_order(out, bytes, place, byte),
        ReadKind::BadMagic => out.push_str(plain_words(fault.kind)),
        ReadKind::BadOpcode => {
            let second = bytes.get(place.saturating_add(1)).copied().unwrap_or(0);
            let (name, flag) = later_opcode(byte, second);
            show_place(out, bytes, place)?;
            write!(
                out,
                ": {byte:02X} is {name}\nthis host runs version 1.0: {flag}"
            )
        }
        ReadKind::FloatUsed => {
            show_place(out, bytes, place)?;
            let name = float_name(byte);
            write!(
                out,
                ": {byte:02X} is {name}\nthis host has no floating point: leave out float and double, and libraries that use them (printf, JavaScript engines)"
            )
        }
        ReadKind::BadForm => {
            show_place(out, bytes, place)?;
            let name = later_form(byte);
            write!(out, ": {byte:02X} is {name}")
        }
        _ => {
            show_place(out, bytes, place)?;
            let words = plain_words(fault.kind);
            write!(out, ": {words}")
        }
    }
}

/// What the kinds of validation faults mean.
fn valid_words(kind: ValidKind) -> &'static str {
    match kind {
        ValidKind::UnknownType => "it names a type that isn't there",
        ValidKind::UnknownFunction =>
            "it names a function that isn't there (imported ones are counted first)",
        ValidKind::UnknownTable => "it needs a table, and there is none",
        ValidKind::UnknownMemory => "it needs a memory, and there is none",
        ValidKind::UnknownGlobal =>
            "it names a global that isn't there, or that can't be read there",
        ValidKind::UnknownLocal =>
            "it names a local that isn't there (parameters are counted first, from 0)",
        ValidKind::UnknownLabel => "it branches out of more blocks than there are",
        ValidKind::TypeMismatch =>
            "operands are missing, left over, or of another type (i32 and i64 aren't the same)",
        ValidKind::ImmutableGlobal => "it sets a global that isn't mutable",
        ValidKind::BadAlign => "its alignment is greater than the width of what it loads or stores",
        ValidKind::BadConst => "where a constant is wanted stands something else",
        ValidKind::BadLimits => "its least size is above its greatest, or out of range",
        ValidKind::BadStart => "the start function takes or gives something; it may do neither",
        ValidKind::DuplicateExport => "two exports have one name; this is the later one",
        ValidKind::MoreThanOne =>
            "there are two tables or two memories; version 1.0 has one of each at most",
        ValidKind::TooHigh => "more than 1,024 operands stand at once",
        ValidKind::OutOfMemory => "there was no memory",
    }
}

/// An instruction of a function, by its number and its byte.
fn show_instruction(
    out: &mut String,
    bytes: &[u8],
    function: u64,
    number: u64,
) -> Result<(), AllocError> {
    write!(
        out,
        "function {function} (imported ones counted), instruction {number} (from 0, `else` and `end` not counted)"
    )?;
    if let Some(place) = instruction_at(bytes, function, number) {
        let opcode = bytes.get(place).copied().unwrap_or(0);
        write!(out, " at byte {place} (0x{place:x}), {opcode:02X}")?;
        match opcode {
            0x02..=0x04 => out.push_str(", or the block that begins there")?,
            0x0b => out.push_str(", the end of the function")?,
            _ => {}
        }
    }
    out.push_str(": ")
}

fn valid_hint(out: &mut String, bytes: &[u8], fault: ValidFault) -> Result<(), AllocError> {
    let index = fault.index;
    match fault.part {
        Part::Code => show_instruction(out, bytes, u64::from(index), u64::from(fault.at))?,
        _ => write!(out, "item {index} (from 0): ")?,
    }
    out.push_str(valid_words(fault.kind))?;
    out.push_str(
        "\n`wasm-objdump -d` or `wasm-validate` of wabt show the place; a compiler's own output is valid, so the file may be damaged or made by hand",
    )
}

/// The hint for a module; nothing where it would run here. Answers whether something was wrong.
pub fn module_hint(out: &mut String, bytes: &[u8]) -> Result<bool, AllocError> {
    match load(*out.allocator(), bytes) {
        Ok(_) => Ok(false),
        Err(Stopped::OutOfMemory) => Err(AllocError),
        Err(Stopped::Fault(fault)) => {
            match fault {
                ModuleFault::Read(fault) => read_hint(out, bytes, fault)?,
                ModuleFault::Valid(fault) => valid_hint(out, bytes, fault)?,
                ModuleFault::Link(refusal) => link_hint(out, bytes, refusal)?,
            }
            Ok(true)
        }
    }
}
