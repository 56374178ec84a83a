//! Numbers in LEB128, in their shortest spellings (section 5.2.2).

ghost use Rattle.std.specs.Prelude.{◌≡◌, ◌<◌, ◌++◌, IfOk};
ghost use Rattle.wasm_writer.specs.Numbers.{number_text, seven_bits, signed_text, i32_text, i64_text};

use std::alloc::AllocError;

/// An unsigned number.
pub(crate) fn write_number(out: &mut Vec<u8>, number: u64) -> Result<(), AllocError>
    ensures { IfOk result (λ _. out.new.items ≡ out.old.items ++ number_text number) }
{
    let mut left = number;
    while left >= 128 {
        out.push(128 + (left % 128) as u8)?;
        left /= 128;
    }
    out.push(left as u8)?;
    Ok(())
}

// Seven bits of a number, or of its complement.
fn seven_bits(negative: bool, bits: u64) -> u8
    requires { bits < 128 }
    ensures { result ≡ seven_bits negative bits }
{
    if negative {
        127 - bits as u8
    } else {
        bits as u8
    }
}

// A signed number: this one, or the negative one whose complement it is.
fn write_signed(out: &mut Vec<u8>, negative: bool, number: u64) -> Result<(), AllocError>
    ensures { IfOk result (λ _. out.new.items ≡ out.old.items ++ signed_text negative number) }
{
    let mut left = number;
    while left >= 64 {
        out.push(128 + seven_bits(negative, left % 128))?;
        left /= 128;
    }
    out.push(seven_bits(negative, left))?;
    Ok(())
}

/// A number of 32 bits, in two's complement, as a signed one.
#[tactic(auto, unfolding(crate::specs::Numbers::i32_text))]
pub(crate) fn write_i32(out: &mut Vec<u8>, number: u32) -> Result<(), AllocError>
    ensures { IfOk result (λ _. out.new.items ≡ out.old.items ++ i32_text number) }
{
    if number < 0x8000_0000 {
        write_signed(out, false, u64::from(number))
    } else {
        write_signed(out, true, u64::from(u32::MAX - number))
    }
}

/// A number of 64 bits, in two's complement, as a signed one.
#[tactic(auto, unfolding(crate::specs::Numbers::i64_text))]
pub(crate) fn write_i64(out: &mut Vec<u8>, number: u64) -> Result<(), AllocError>
    ensures { IfOk result (λ _. out.new.items ≡ out.old.items ++ i64_text number) }
{
    if number < 0x8000_0000_0000_0000 {
        write_signed(out, false, number)
    } else {
        write_signed(out, true, u64::MAX - number)
    }
}
