//! Numbers in bytes, the lowest byte first.

ghost use Rattle.std.specs.Prelude.{◌≡◌, ◌+◌, ◌*◌, ◌^◌, ◌≤◌, ◌<◌, length, IsTrue};
ghost use Rattle.wasm_memory.specs.Bytes.{bytes_at, number_of, bytes_of, set_all, is_access};

/// The number in 1, 2, 4 or 8 bytes.
pub fn read(bytes: &[u8], at: usize, size: u32) -> u64
    requires inside { at + size ≤ length bytes.now }
    requires size { IsTrue (is_access size) }
    ensures number { result ≡ number_of (bytes_at bytes.now at size) }
    ensures bound { result < 2 ^ (8 * size) }
{
    match size {
        1 => u64::from(bytes[at]),
        2 => read2(bytes, at),
        4 => read4(bytes, at),
        _ => read8(bytes, at),
    }
}

fn read2(bytes: &[u8], at: usize) -> u64
    requires { at + 2 ≤ length bytes.now }
    ensures number { result ≡ number_of (bytes_at bytes.now at 2) }
    ensures bound { result < 2 ^ 16 }
{
    let b0 = u64::from(bytes[at]);
    let b1 = u64::from(bytes[at + 1]);
    b0 + 0x100 * b1
}

fn read4(bytes: &[u8], at: usize) -> u64
    requires { at + 4 ≤ length bytes.now }
    ensures number { result ≡ number_of (bytes_at bytes.now at 4) }
    ensures bound { result < 2 ^ 32 }
{
    let b0 = u64::from(bytes[at]);
    let b1 = u64::from(bytes[at + 1]);
    let b2 = u64::from(bytes[at + 2]);
    let b3 = u64::from(bytes[at + 3]);
    b0 + 0x100 * b1 + 0x1_0000 * b2 + 0x100_0000 * b3
}

fn read8(bytes: &[u8], at: usize) -> u64
    requires { at + 8 ≤ length bytes.now }
    ensures { result ≡ number_of (bytes_at bytes.now at 8) }
{
    let b0 = u64::from(bytes[at]);
    let b1 = u64::from(bytes[at + 1]);
    let b2 = u64::from(bytes[at + 2]);
    let b3 = u64::from(bytes[at + 3]);
    let b4 = u64::from(bytes[at + 4]);
    let b5 = u64::from(bytes[at + 5]);
    let b6 = u64::from(bytes[at + 6]);
    let b7 = u64::from(bytes[at + 7]);
    let low = b0 + 0x100 * b1 + 0x1_0000 * b2 + 0x100_0000 * b3;
    low + 0x1_0000_0000 * b4
        + 0x100_0000_0000 * b5
        + 0x1_0000_0000_0000 * b6
        + 0x100_0000_0000_0000 * b7
}

/// The lowest 1, 2, 4 or 8 bytes of a number, written at a place.
pub fn write(bytes: &mut [u8], at: usize, size: u32, value: u64)
    requires inside { at + size ≤ length bytes.old }
    requires size { IsTrue (is_access size) }
    ensures { bytes.new ≡ set_all at (bytes_of size value) bytes.old }
{
    match size {
        1 => bytes[at] = (value % 0x100) as u8,
        2 => write2(bytes, at, value),
        4 => write4(bytes, at, value),
        _ => write8(bytes, at, value),
    }
}

fn write2(bytes: &mut [u8], at: usize, value: u64)
    requires { at + 2 ≤ length bytes.old }
    ensures { bytes.new ≡ set_all at (bytes_of 2 value) bytes.old }
{
    bytes[at] = (value % 0x100) as u8;
    bytes[at + 1] = (value / 0x100 % 0x100) as u8;
}

fn write4(bytes: &mut [u8], at: usize, value: u64)
    requires { at + 4 ≤ length bytes.old }
    ensures { bytes.new ≡ set_all at (bytes_of 4 value) bytes.old }
{
    bytes[at] = (value % 0x100) as u8;
    bytes[at + 1] = (value / 0x100 % 0x100) as u8;
    bytes[at + 1 + 1] = (value / 0x100 / 0x100 % 0x100) as u8;
    bytes[at + 1 + 1 + 1] = (value / 0x100 / 0x100 / 0x100 % 0x100) as u8;
}

fn write8(bytes: &mut [u8], at: usize, value: u64)
    requires { at + 8 ≤ length bytes.old }
    ensures { bytes.new ≡ set_all at (bytes_of 8 value) bytes.old }
{
    bytes[at] = (value % 0x100) as u8;
    bytes[at + 1] = (value / 0x100 % 0x100) as u8;
    bytes[at + 1 + 1] = (value / 0x100 / 0x100 % 0x100) as u8;
    bytes[at + 1 + 1 + 1] = (value / 0x100 / 0x100 / 0x100 % 0x100) as u8;
    let high = value / 0x100 / 0x100 / 0x100 / 0x100;
    bytes[at + 1 + 1 + 1 + 1] = (high % 0x100) as u8;
    bytes[at + 1 + 1 + 1 + 1 + 1] = (high / 0x100 % 0x100) as u8;
    bytes[at + 1 + 1 + 1 + 1 + 1 + 1] = (high / 0x100 / 0x100 % 0x100) as u8;
    bytes[at + 1 + 1 + 1 + 1 + 1 + 1 + 1] = (high / 0x100 / 0x100 / 0x100 % 0x100) as u8;
}
