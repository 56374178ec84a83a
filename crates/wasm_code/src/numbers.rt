//! Numbers in LEB128 (section 5.2.2).

ghost use Rattle.std.specs.Prelude.{◌≡◌, ◌<◌, ◌^◌, IfOk};
ghost use Rattle.wasm_code.specs.Reading.{Gives, unsigned_at, signed_at, last_signed, u32_at, s32_at, s64_at, count_at};

use crate::fault::{ReadFault, ReadKind, Stop};
use crate::scope::{Scope, fault_at, short_of};

// A number below the limit, which is 2 to the count of its bits.
#[tactic(auto, unfolding(crate::specs::Reading::unsigned_at))]
fn unsigned(
    bad: ReadFault,
    short: ReadFault,
    limit: u64,
    bytes: &[u8],
) -> Result<(u64, &[u8]), Stop>
    ensures exact { Gives (λ x. (x.0, x.1.now)) result (unsigned_at bad short limit bytes.now) }
    ensures below { IfOk result (λ x. x.0 < limit) }
{
    match bytes {
        [] => Err(Stop::Fault(short)),
        [digit, rest @ ..] => {
            let digit = u64::from(*digit);
            if digit < 128 {
                if digit < limit {
                    return Ok((digit, rest));
                }
                return Err(Stop::Fault(bad));
            }
            if 128 < limit {
                let (high, rest) = unsigned(bad, short, limit / 128, rest)?;
                return Ok((128 * high + (digit - 128), rest));
            }
            Err(Stop::Fault(bad))
        }
    }
}

/// A number of 32 bits.
#[tactic(auto, unfolding(crate::specs::Reading::u32_at))]
pub fn read_u32(scope: Scope, bytes: &[u8]) -> Result<(u32, &[u8]), Stop>
    ensures { Gives (λ x. (x.0, x.1.now)) result (u32_at scope bytes.now) }
{
    let bad = fault_at(ReadKind::BadLeb, scope, bytes);
    let (number, rest) = unsigned(bad, short_of(scope), 4_294_967_296, bytes)?;
    Ok((number as u32, rest))
}

/// A count that may not exceed the limit.
#[tactic(auto, unfolding(crate::specs::Reading::count_at))]
pub fn read_count(limit: u32, scope: Scope, bytes: &[u8]) -> Result<(u32, &[u8]), Stop>
    ensures { Gives (λ x. (x.0, x.1.now)) result (count_at limit scope bytes.now) }
{
    let (count, rest) = read_u32(scope, bytes)?;
    if limit < count {
        return Err(Stop::Fault(fault_at(ReadKind::TooLarge, scope, bytes)));
    }
    Ok((count, rest))
}

// The value of the last byte of a signed number as two's complement, if it has that many bits.
fn last_signed(limit: u128, digit: u128) -> Option<u128>
    requires digit { digit < 128 }
    requires limit { limit < 2 ^ 65 }
    ensures { result ≡ last_signed limit digit }
{
    if digit < 64 {
        if digit < limit / 2 {
            return Some(digit);
        }
        return None;
    }
    if 128 <= limit / 2 + digit {
        return Some(limit + digit - 128);
    }
    None
}

// A signed number in two's complement, below the limit.
#[tactic(auto, unfolding(crate::specs::Reading::signed_at))]
fn signed(
    bad: ReadFault,
    short: ReadFault,
    limit: u128,
    bytes: &[u8],
) -> Result<(u128, &[u8]), Stop>
    requires { limit < 2 ^ 65 }
    ensures exact { Gives (λ x. (x.0, x.1.now)) result (signed_at bad short limit bytes.now) }
    ensures below { IfOk result (λ x. x.0 < limit) }
{
    match bytes {
        [] => Err(Stop::Fault(short)),
        [digit, rest @ ..] => {
            let digit = u128::from(*digit);
            if digit < 128 {
                return match last_signed(limit, digit) {
                    Some(number) => Ok((number, rest)),
                    None => Err(Stop::Fault(bad)),
                };
            }
            if limit > 128 {
                let (high, rest) = signed(bad, short, limit / 128, rest)?;
                return Ok((128 * high + (digit - 128), rest));
            }
            Err(Stop::Fault(bad))
        }
    }
}

/// A signed number of 32 bits, as its bits.
#[tactic(auto, unfolding(crate::specs::Reading::s32_at))]
pub fn read_s32(scope: Scope, bytes: &[u8]) -> Result<(u32, &[u8]), Stop>
    ensures { Gives (λ x. (x.0, x.1.now)) result (s32_at scope bytes.now) }
{
    let bad = fault_at(ReadKind::BadLeb, scope, bytes);
    let (number, rest) = signed(bad, short_of(scope), 4_294_967_296, bytes)?;
    Ok((number as u32, rest))
}

/// A signed number of 64 bits, as its bits.
#[tactic(auto, unfolding(crate::specs::Reading::s64_at))]
pub fn read_s64(scope: Scope, bytes: &[u8]) -> Result<(u64, &[u8]), Stop>
    ensures { Gives (λ x. (x.0, x.1.now)) result (s64_at scope bytes.now) }
{
    let bad = fault_at(ReadKind::BadLeb, scope, bytes);
    let (number, rest) = signed(bad, short_of(scope), 18_446_744_073_709_551_616, bytes)?;
    Ok((number as u64, rest))
}
