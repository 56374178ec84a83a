//! Functions without parameters, the fuel that they are given, how they stop and what is left of it.

use module_machine::{Image, Machine, NewFault, Prepared, Stop, imports_functions};
use std::alloc::{AllocError, Global};
use std::test::Fail;
use wasm_accept::accept;
use wasm_types::{TrapKind, Value};
use wasm_validate::Valid;

// How a run stopped.
fn word(stop: &Stop) -> &'static str {
    match stop {
        Stop::HostCall { .. } => "calls an import",
        Stop::Returned => "returned",
        Stop::Trapped(TrapKind::Unreachable) => "unreachable",
        Stop::Trapped(TrapKind::DivideByZero) => "divide by zero",
        Stop::Trapped(TrapKind::Overflow) => "overflow",
        Stop::Trapped(TrapKind::OutOfBounds) => "out of bounds",
        Stop::Trapped(TrapKind::TableBounds) => "past the table",
        Stop::Trapped(TrapKind::NullElement) => "no function",
        Stop::Trapped(TrapKind::IndirectType) => "another type",
        Stop::Trapped(TrapKind::StackFull) => "stack full",
        Stop::Trapped(TrapKind::Segment) => "segment",
        Stop::OutOfFuel => "out of fuel",
        Stop::OutOfMemory => "out of memory",
    }
}

// How a function ends. Each call of the import has to ask with 7; meanwhile the host writes 42 to the byte 3, it answers 5, and
// then there is as much fuel again.
fn ended(machine: &mut Machine, function: u32, fuel: u64) -> (&'static str, u64) {
    if machine.start(function).is_err() {
        return ("not started", 0);
    }
    let (stop, left) = machine.run(fuel);
    match stop {
        Stop::HostCall {
            import: 0,
            arguments,
        } => {
            if !matches!(arguments.items(), [Value::I32(7)]) {
                return ("asked otherwise", left);
            }
            let Some(mut memory) = machine.take_memory() else {
                return ("no memory", left);
            };
            if memory.store(3, 1, 42).is_err() {
                return ("no byte", left);
            }
            machine.put_memory(Some(memory));
            machine.resume(Some(Value::I32(5)));
            let (stop, left) = machine.run(fuel);
            (word(&stop), left)
        }
        _ => (word(&stop), left),
    }
}

fn of_module(
    alloc: Global,
    valid: &Valid,
    function: u32,
    fuel: u64,
) -> Result<(&'static str, u64), AllocError> {
    if !imports_functions(valid) {
        return Ok(("imports otherwise", 0));
    }
    let prepared = Prepared::new(alloc, valid)?;
    let image = Image::new(alloc, valid, &prepared)?;
    match Machine::new(alloc, &image) {
        Ok(mut machine) => Ok(ended(&mut machine, function, fuel)),
        Err(NewFault::Segment) => Ok(("segment", 0)),
        Err(NewFault::OutOfMemory) => Err(AllocError),
    }
}

// Function 0 takes and gives nothing, and has this code; function 1 takes a number and gives it. The table has four entries, of
// which the first two name them, the memory one page, of at most two, and there is a global, which may change.
const ALONE: &[u8] =
    b"\0asm\x01\0\0\0\x01\x09\x02`\0\0`\x01\x7F\x01\x7F\x03\x03\x02\0\x01\x04\x04\x01p\0\x04\x05\x04\x01\x01\x01\x02\x06\x06\x01\x7F\x01A\0\x0B\x09\x08\x01\0A\0\x0B\x02\0\x01";

const NOTHING: &[u8] = b"";

const SECOND: &[u8] = b"\x04\0\x20\0\x0B";

// Function 0 is an import that takes a number and gives one, function 1 has the code.
const ASKING: &[u8] =
    b"\0asm\x01\0\0\0\x01\x09\x02`\0\0`\x01\x7F\x01\x7F\x02\x07\x01\x01m\x01f\0\x01\x03\x02\x01\0\x05\x04\x01\x01\x01\x02";

// A module's bytes; the function has one local. Its code and what follows it are shorter than 100 bytes.
fn module_of(alloc: Global, head: &[u8], code: &[u8], tail: &[u8]) -> Result<Vec<u8>, AllocError> {
    let mut bytes = Vec::new(alloc);
    let bodies = if tail.is_empty() { 1 } else { 2 };
    let own = (code.len() % 100) as u8 + 3;
    let all = own + 2 + (tail.len() % 20) as u8;
    bytes.extend_from_slice(head)?;
    bytes.extend_from_slice(&[0x0A, all, bodies, own, 1, 1, 0x7F])?;
    bytes.extend_from_slice(code)?;
    bytes.extend_from_slice(tail)?;
    Ok(bytes)
}

fn told(rt: &HostRuntime, asks: bool, code: &[u8], fuel: u64) -> Result<(&'static str, u64), Fail> {
    let alloc = rt.alloc();
    let (head, tail, function) = if asks {
        (ASKING, NOTHING, 1)
    } else {
        (ALONE, SECOND, 0)
    };
    let bytes = module_of(alloc, head, code, tail)?;
    match accept(alloc, bytes.as_slice()) {
        Ok(valid) => Ok(of_module(alloc, &valid, function, fuel)?),
        Err(_) => Ok(("not accepted", 0)),
    }
}

#[test]
fn rows(rt: HostRuntime) -> Result<(), Fail> {
    let rows: [(bool, &[u8], u64, (&'static str, u64)); 34] = [
        (false, b"\x0B", 0, ("returned", 0)),
        (false, b"\x01\x01\x01\x0B", 0, ("out of fuel", 0)),
        (false, b"\x01\x01\x01\x0B", 1, ("out of fuel", 0)),
        (false, b"\x01\x01\x01\x0B", 2, ("out of fuel", 0)),
        (false, b"\x01\x01\x01\x0B", 3, ("returned", 0)),
        (false, b"\x01\x01\x01\x0B", 5, ("returned", 2)),
        (false, b"\x03\x40\x0C\0\x0B\x0B", 9, ("out of fuel", 0)),
        (
            false,
            b"\x03\x40\x20\0\x41\x01\x6A\x22\0\x41\x02\x49\x0D\0\x0B\x0B",
            20,
            ("returned", 4),
        ),
        (false, b"\x10\0\x0B", 5000, ("stack full", 2952)),
        (false, b"\0\x0B", 4, ("unreachable", 3)),
        (
            false,
            b"\x41\x01\x41\0\x6D\x1A\x0B",
            4,
            ("divide by zero", 1),
        ),
        (
            false,
            b"\x41\x80\x80\x80\x80\x78\x41\x7F\x6D\x1A\x0B",
            4,
            ("overflow", 1),
        ),
        (
            false,
            b"\x41\x80\x80\x04\x28\x02\0\x1A\x0B",
            4,
            ("out of bounds", 2),
        ),
        (false, b"\x41\x04\x11\0\0\x0B", 4, ("past the table", 2)),
        (false, b"\x41\x02\x11\0\0\x0B", 4, ("no function", 2)),
        (false, b"\x41\x01\x11\0\0\x0B", 4, ("another type", 2)),
        (false, b"\x41\0\x11\0\0\x0B", 5000, ("stack full", 904)),
        // A table of branches: to the first label, to the other one, and past the end.
        (
            false,
            b"\x02\x40\x02\x40\x41\0\x0E\x01\0\x01\x0B\x01\x0B\x01\x0B",
            9,
            ("returned", 3),
        ),
        (
            false,
            b"\x02\x40\x02\x40\x41\x01\x0E\x01\0\x01\x0B\x01\x0B\x01\x0B",
            9,
            ("returned", 4),
        ),
        (
            false,
            b"\x02\x40\x02\x40\x41\x07\x0E\x01\0\x01\x0B\x01\x0B\x01\x0B",
            9,
            ("returned", 4),
        ),
        // An if without an else, and one with an else.
        (false, b"\x41\x01\x04\x40\x01\x0B\x0B", 9, ("returned", 6)),
        (false, b"\x41\0\x04\x40\x01\x0B\x0B", 9, ("returned", 7)),
        (
            false,
            b"\x41\x01\x04\x40\x01\x05\0\x0B\x0B",
            9,
            ("returned", 6),
        ),
        (
            false,
            b"\x41\0\x04\x40\0\x05\x01\x0B\x0B",
            9,
            ("returned", 6),
        ),
        // What a block gives is what stands on top of what stood before it.
        (
            false,
            b"\x41\x06\x02\x7F\x41\x08\x41\x07\x0C\0\x0B\x6C\x41\x2A\x47\x04\x40\0\x0B\x0B",
            20,
            ("returned", 11),
        ),
        // A number of 64 bits is stored, and its last byte read with its sign.
        (
            false,
            b"\x41\x08\x42\x80\x7F\x37\x03\0\x41\x0F\x30\0\0\x42\x7F\x52\x04\x40\0\x0B\x0B",
            20,
            ("returned", 12),
        ),
        // A memory grows once, and tells its pages.
        (
            false,
            b"\x41\x01\x40\0\x41\x01\x40\0\x6A\x3F\0\x6A\x41\x02\x47\x04\x40\0\x0B\x0B",
            20,
            ("returned", 10),
        ),
        // A number is dropped, and the function left before its end.
        (false, b"\x41\x07\x1A\x0F\0\x0B", 9, ("returned", 6)),
        // A function gives back the number that it is called with.
        (
            false,
            b"\x41\x07\x10\x01\x41\x07\x47\x04\x40\0\x0B\x0B",
            20,
            ("returned", 14),
        ),
        // A local and a global that were written.
        (
            false,
            b"\x41\x07\x21\0\x41\x09\x24\0\x20\0\x23\0\x6A\x41\x10\x47\x04\x40\0\x0B\x0B",
            20,
            ("returned", 10),
        ),
        // Of 7 and 5 the second where the test is zero; the zeros before 5.
        (
            false,
            b"\x41\x07\x41\x05\x41\x01\x45\x1B\x67\x41\x1D\x47\x04\x40\0\x0B\x0B",
            20,
            ("returned", 11),
        ),
        // Numbers of 64 bits: 5 less 3, the zeros before 2, through 32 bits and back in both ways.
        (
            false,
            b"\x42\x05\x42\x03\x7D\x79\xA7\xAC\xA7\xAD\x42\x3E\x52\x04\x40\0\x0B\x0B",
            20,
            ("returned", 9),
        ),
        (
            false,
            b"\x42\0\x50\x45\x04\x40\0\x0B\x0B",
            20,
            ("returned", 16),
        ),
        // An import is asked with 7 and answers 5; a byte that it wrote is there.
        (
            true,
            b"\x41\x07\x10\0\x41\x05\x47\x04\x40\0\x0B\x41\x03\x2D\0\0\x41\x2A\x47\x04\x40\0\x0B\x0B",
            12,
            ("returned", 4),
        ),
    ];
    for (asks, code, fuel, wanted) in rows {
        assert_eq!(rt; told(&rt, asks, code, fuel)?, wanted);
    }
    Ok(())
}
