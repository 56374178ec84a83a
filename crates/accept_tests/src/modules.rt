//! Modules as another tool wrote them, and their faults. Of each, wasm-validate of wabt 1.0.32 says whether it is valid.

use std::test::Fail;
use wasm_accept::*;

mod index_rows;
mod never_reached_rows;
mod operand_rows;
mod part_rows;

// What is told of bytes, which stand behind the magic and the version.
fn told(rt: &HostRuntime, bytes: &[u8]) -> Result<String, Fail> {
    let mut all = b"\0asm\x01\0\0\0".to_vec(rt.alloc())?;
    all.extend_from_slice(bytes)?;
    match accept(rt.alloc(), &all) {
        Ok(_) => Ok(String::from_str(rt.alloc(), "ok")?),
        Err(Refusal::Valid(fault)) => Ok(fault.text(rt.alloc())?),
        Err(Refusal::Read(_)) => Ok(String::from_str(rt.alloc(), "not read")?),
    }
}

// A number below 2,097,152 in three bytes.
fn three(number: usize) -> [u8; 3] {
    [
        (number % 128) as u8 | 0x80,
        (number / 128 % 128) as u8 | 0x80,
        (number / 16384 % 128) as u8,
    ]
}

// What is told of a function of so many constants, these instructions, and as many drops.
fn told_of_height(rt: &HostRuntime, count: usize, middle: &[u8]) -> Result<String, Fail> {
    let count = count.min(10_000);
    let inside = 2 * count + middle.len().min(100) + count + 2;
    let mut all = b"\x01\x04\x01`\0\0\x03\x02\x01\0\x0A".to_vec(rt.alloc())?;
    all.extend_from_slice(&three(inside + 4))?;
    all.push(1)?;
    all.extend_from_slice(&three(inside))?;
    all.push(0)?;
    for _ in 0..count {
        all.extend_from_slice(&[0x41, 0])?;
    }
    all.extend_from_slice(middle)?;
    for _ in 0..count {
        all.push(0x1A)?;
    }
    all.push(0x0B)?;
    told(rt, &all)
}

// What is told of a section with an expression of 1,025 constants.
fn told_of_constants(
    rt: &HostRuntime,
    before: &[u8],
    id: u8,
    head: &[u8],
    tail: &[u8],
) -> Result<String, Fail> {
    let mut all = before.to_vec(rt.alloc())?;
    all.push(id)?;
    all.extend_from_slice(&three(head.len().min(100) + 2051 + tail.len().min(100)))?;
    all.extend_from_slice(head)?;
    for _ in 0..1025u32 {
        all.extend_from_slice(&[0x41, 0])?;
    }
    all.push(0x0B)?;
    all.extend_from_slice(tail)?;
    told(rt, &all)
}

#[test]
fn modules_are_told(rt: HostRuntime) -> Result<(), Fail> {
    let kinds = [
        index_rows::ROWS,
        never_reached_rows::ROWS,
        operand_rows::ROWS,
        part_rows::ROWS,
    ];
    for rows in kinds {
        for (bytes, wanted) in rows {
            let found = told(&rt, bytes)?;
            assert!(rt; found.as_bytes() == *wanted, "{bytes:?}");
        }
    }
    Ok(())
}

#[test]
fn heights(rt: HostRuntime) -> Result<(), Fail> {
    let high = "module: too-high in function 0 at 1024";
    assert!(rt; told_of_height(&rt, 1024, &[])?.as_str() == "ok");
    assert!(rt; told_of_height(&rt, 1025, &[])?.as_str() == high);
    // block (result i32) unreachable end: its own end is too high
    let ended = told_of_height(&rt, 1024, b"\x02\x7F\0\x0B")?;
    assert!(rt; ended.as_str() == high);
    // unreachable drop: what is taken from below isn't counted
    let below = told_of_height(&rt, 1024, b"\0\x1A")?;
    assert!(rt; below.as_str() == "ok");
    let parts: [(&[u8], u8, &[u8], &[u8], &[u8]); 3] = [
        (b"", 6, b"\x01\x7F\0", b"", b"module: too-high in global 0"),
        (
            b"\x04\x04\x01p\0\x01",
            9,
            b"\x01\0",
            b"\0",
            b"module: too-high in element 0",
        ),
        (
            b"\x05\x03\x01\0\x01",
            11,
            b"\x01\0",
            b"\0",
            b"module: too-high in data 0",
        ),
    ];
    for (before, id, head, tail, wanted) in parts {
        let found = told_of_constants(&rt, before, id, head, tail)?;
        assert!(rt; found.as_bytes() == wanted, "{head:?}");
    }
    Ok(())
}
