//! Bytes that are given as hexadecimal digits.

use std::test::Fail;

/// What a module begins with: the magic and the version.
pub const HEAD: &[u8] = b"\0asm\x01\0\0\0";

/// The bytes of a head, and behind it those that the digits spell; spaces between them are passed over.
pub fn bytes_of(rt: &HostRuntime, head: &[u8], text: &str) -> Result<Vec<u8>, Fail> {
    let digits: Vec<u8> = text
        .bytes()
        .filter(|byte| *byte != b' ')
        .collect(rt.alloc())?;
    let mut bytes = head.to_vec(rt.alloc())?;
    bytes.extend_from_slice(hex::decode(rt.alloc(), digits.as_slice())?.as_slice())?;
    Ok(bytes)
}
