//! Operations on numbers of 32 bits.

ghost use Rattle.std.specs.Prelude.{◌≡◌};
ghost use Rattle.std.specs.Int.{w32};
ghost use Rattle.wasm_num.specs.Numbers.{binary, unary, test, compare, truth, idiv_u, irem_u, idiv_s, irem_s, ishr_s, irotl, irotr};

use wasm_types::{Binary, Compare, Test, TrapKind, Unary};

/// 1 or 0.
pub fn i32_test(op: Test, a: u32) -> u32
    ensures { result ≡ truth (test op a) }
{
    match op {
        Test::Eqz => u32::from(a == 0),
    }
}

/// 1 or 0.
pub fn i32_compare(op: Compare, a: u32, b: u32) -> u32
    ensures { result ≡ truth (compare w32 op a b) }
{
    u32::from(holds(op, a, b))
}

fn holds(op: Compare, a: u32, b: u32) -> bool
    ensures { result ≡ compare w32 op a b }
{
    match op {
        Compare::Eq => a == b,
        Compare::Ne => a != b,
        Compare::LtS => a.cast_signed() < b.cast_signed(),
        Compare::LtU => a < b,
        Compare::GtS => b.cast_signed() < a.cast_signed(),
        Compare::GtU => b < a,
        Compare::LeS => a.cast_signed() <= b.cast_signed(),
        Compare::LeU => a <= b,
        Compare::GeS => b.cast_signed() <= a.cast_signed(),
        Compare::GeU => b <= a,
    }
}

pub fn i32_unary(op: Unary, a: u32) -> u32
    ensures { result ≡ unary w32 op a }
{
    match op {
        Unary::Clz => a.leading_zeros(),
        Unary::Ctz => a.trailing_zeros(),
        Unary::Popcnt => a.count_ones(),
    }
}

/// `DivideByZero` and `Overflow` are the only traps, of divisions and remainders.
pub fn i32_binary(op: Binary, a: u32, b: u32) -> Result<u32, TrapKind>
    ensures { result ≡ binary w32 op a b }
{
    match op {
        Binary::Add => Ok(a.wrapping_add(b)),
        Binary::Sub => Ok(a.wrapping_sub(b)),
        Binary::Mul => Ok(a.wrapping_mul(b)),
        Binary::DivS => div_s(a, b),
        Binary::DivU => div_u(a, b),
        Binary::RemS => rem_s(a, b),
        Binary::RemU => rem_u(a, b),
        Binary::And => Ok(a & b),
        Binary::Or => Ok(a | b),
        Binary::Xor => Ok(a ^ b),
        Binary::Shl => Ok(a << (b % 32)),
        Binary::ShrS => Ok(shr_s(a, b)),
        Binary::ShrU => Ok(a >> (b % 32)),
        Binary::Rotl => Ok(rotl(a, b)),
        Binary::Rotr => Ok(rotr(a, b)),
    }
}

fn div_u(a: u32, b: u32) -> Result<u32, TrapKind>
    ensures { result ≡ idiv_u a b }
{
    if b == 0 {
        Err(TrapKind::DivideByZero)
    } else {
        Ok(a / b)
    }
}

fn rem_u(a: u32, b: u32) -> Result<u32, TrapKind>
    ensures { result ≡ irem_u a b }
{
    if b == 0 {
        Err(TrapKind::DivideByZero)
    } else {
        Ok(a % b)
    }
}

fn div_s(a: u32, b: u32) -> Result<u32, TrapKind>
    ensures { result ≡ idiv_s w32 a b }
{
    if b == 0 {
        return Err(TrapKind::DivideByZero);
    }
    match a.cast_signed().checked_div(b.cast_signed()) {
        Some(quotient) => Ok(quotient.cast_unsigned()),
        None => Err(TrapKind::Overflow),
    }
}

fn rem_s(a: u32, b: u32) -> Result<u32, TrapKind>
    ensures { result ≡ irem_s w32 a b }
{
    if b == 0 {
        return Err(TrapKind::DivideByZero);
    }
    Ok(
        a.cast_signed()
            .wrapping_rem(b.cast_signed())
            .cast_unsigned(),
    )
}

fn shr_s(a: u32, b: u32) -> u32
    ensures { result ≡ ishr_s w32 a b }
{
    (a.cast_signed() >> (b % 32)).cast_unsigned()
}

fn rotl(a: u32, b: u32) -> u32
    ensures { result ≡ irotl w32 a b }
{
    a.rotate_left(b)
}

fn rotr(a: u32, b: u32) -> u32
    ensures { result ≡ irotr w32 a b }
{
    a.rotate_right(b)
}
