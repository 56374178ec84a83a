//! Single words: numbers, and bytes in hexadecimal.

ghost use Rattle.std.specs.Prelude.{◌≡◌, ◌<◌, ◌^◌, ℕ, List, Some, IfOk, IfSome, decimal, string_bytes};
ghost use Rattle.hex.specs.Hex.{IsBytes};
ghost use Rattle.edge_words.specs.Words.{hex_word};
ghost use Rattle.edge_words.specs.Reading.{Gives, number_in, hex_in, fault_of};

use crate::LineFault;
use hex::FromHexError;
use itoa::Buffer;
use std::alloc::{AllocError, Global};

/// The number that the word spells: decimal digits with no leading zero, below 2^64.
pub fn read_number(word: &[u8]) -> Option<u64>
    ensures value { result ≡ number_in word.now }
    ensures spelled { IfSome result (λ n. (word.now ≡ decimal n) × (n < 2 ^ 64)) }
    ensures again { (n : ℕ) → n < 2 ^ 64 → word.now ≡ decimal n → result ≡ Some n }
{
    number_of(word)
}

fn number_of(word: &[u8]) -> Option<u64>
    ensures { result ≡ number_in word.now }
{
    match str::from_utf8(word) {
        Ok(text) => read_digits(text),
        Err(_) => None,
    }
}

fn read_digits(text: &str) -> Option<u64>
    ensures { result ≡ number_in text.now }
{
    match text.parse::<u64>() {
        Ok(number) => {
            if Buffer::new().format(number) == text {
                Some(number)
            } else {
                None
            }
        }
        Err(_) => None,
    }
}

/// Two digits 0 to 9 and a to f for each byte, and `-` for no bytes.
pub fn spell_hex(alloc: Global, bytes: &[u8]) -> Result<String, AllocError>
    ensures { IfOk result (λ text. string_bytes text ≡ hex_word bytes.now) }
{
    if bytes.is_empty() {
        String::from_str(alloc, "-")
    } else {
        hex::encode(alloc, bytes)
    }
}

/// The bytes that the word spells in this way.
pub fn read_hex(alloc: Global, word: &[u8]) -> Result<Vec<u8>, LineFault>
    ensures value { Gives (λ bytes. bytes.items) result (hex_in word.now) }
    ensures spelled { IfOk result (λ bytes. word.now ≡ hex_word bytes.items) }
    ensures again { (bytes : List ℕ) → IsBytes bytes → word.now ≡ hex_word bytes → Gives (λ read. read.items) result (Some bytes) }
{
    bytes_of(alloc, word)
}

fn bytes_of(alloc: Global, word: &[u8]) -> Result<Vec<u8>, LineFault>
    ensures { Gives (λ bytes. bytes.items) result (hex_in word.now) }
{
    if word == b"-".as_slice() {
        return Ok(Vec::new(alloc));
    }
    let bytes = match hex::decode(alloc, word) {
        Ok(bytes) => bytes,
        Err(fault) => return Err(line_fault(fault)),
    };
    if spell_hex(alloc, &bytes)?.as_bytes() == word {
        Ok(bytes)
    } else {
        Err(LineFault::Bad)
    }
}

fn line_fault(fault: FromHexError) -> LineFault
    ensures { result ≡ fault_of fault }
{
    match fault {
        FromHexError::OutOfMemory => LineFault::OutOfMemory,
        _ => LineFault::Bad,
    }
}
