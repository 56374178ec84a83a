//! The arguments of a call, as its row takes them.
ghost use Rattle.std.specs.Prelude.{◌≡◌};
ghost use Rattle.guest_calls.specs.Rows.{word, long, words_of};

use wasm_types::Value;

/// The first eight arguments of 32 bits. No call has more.
#[derive(Clone, Copy, Debug, PartialEq, Eq)]
pub struct Words {
    pub a: u32,
    pub b: u32,
    pub c: u32,
    pub d: u32,
    pub e: u32,
    pub f: u32,
    pub g: u32,
    pub h: u32,
}

/// The argument of 32 bits at a place. One that isn't there, which linking excludes, is 0.
pub fn word(arguments: &[Value], place: usize) -> u32
    ensures { result ≡ word arguments.now place }
{
    match arguments.get(place) {
        Some(Value::I32(number)) => *number,
        _ => 0,
    }
}

/// The same of 64 bits.
pub fn long(arguments: &[Value], place: usize) -> u64
    ensures { result ≡ long arguments.now place }
{
    match arguments.get(place) {
        Some(Value::I64(number)) => *number,
        _ => 0,
    }
}

/// The arguments of 32 bits.
pub fn words_of(arguments: &[Value]) -> Words
    ensures { result ≡ words_of arguments.now }
{
    Words {
        a: word(arguments, 0),
        b: word(arguments, 1),
        c: word(arguments, 2),
        d: word(arguments, 3),
        e: word(arguments, 4),
        f: word(arguments, 5),
        g: word(arguments, 6),
        h: word(arguments, 7),
    }
}
