use super::*;
use std::alloc::{AllocError, Global};
use std::test::Fail;
use wasm_types::{Binary, Compare, Convert, Test, TrapKind, Unary};

/// One more answer. Each row of the tables below is made so of an operation's answers at all edge values, or at all pairs
/// of them, in order; `edge_values.py` beside `src` computes the rows.
fn mixed(total: u64, answer: u64) -> u64 {
    total.wrapping_mul(0x100_0000_01b3).wrapping_add(answer)
}

fn answer_of(answer: Result<u64, TrapKind>) -> u64 {
    match answer {
        Ok(number) => number.wrapping_add(3),
        Err(TrapKind::DivideByZero) => 1,
        Err(_) => 2,
    }
}

/// 0, each power of two below a bound, and the greatest signed and unsigned numbers.
fn edges(alloc: Global, high: u64) -> Result<Vec<u64>, AllocError> {
    let mut found = Vec::new(alloc);
    found.push(0)?;
    for k in 0u32..64 {
        let power = 1u64 << k;
        if power <= high {
            found.push(power)?;
        }
    }
    found.push(high.wrapping_sub(1))?;
    found.push(high.wrapping_mul(2).wrapping_sub(1))?;
    Ok(found)
}

fn low(n: u64) -> u32 {
    (n % 0x1_0000_0000) as u32
}

fn binary_at(wide: bool, op: Binary, a: u64, b: u64) -> u64 {
    if wide {
        answer_of(i64_binary(op, a, b))
    } else {
        answer_of(i32_binary(op, low(a), low(b)).map(u64::from))
    }
}

fn compare_at(wide: bool, op: Compare, a: u64, b: u64) -> u64 {
    if wide {
        answer_of(Ok(u64::from(i64_compare(op, a, b))))
    } else {
        answer_of(Ok(u64::from(i32_compare(op, low(a), low(b)))))
    }
}

fn unary_at(wide: bool, op: Unary, a: u64) -> u64 {
    if wide {
        answer_of(Ok(i64_unary(op, a)))
    } else {
        answer_of(Ok(u64::from(i32_unary(op, low(a)))))
    }
}

fn binaries(wide: bool, op: Binary, edges: &[u64]) -> u64 {
    let mut total = 0;
    for a in edges {
        for b in edges {
            total = mixed(total, binary_at(wide, op, *a, *b));
        }
    }
    total
}

fn compares(wide: bool, op: Compare, edges: &[u64]) -> u64 {
    let mut total = 0;
    for a in edges {
        for b in edges {
            total = mixed(total, compare_at(wide, op, *a, *b));
        }
    }
    total
}

fn unaries(wide: bool, op: Unary, edges: &[u64]) -> u64 {
    let mut total = 0;
    for a in edges {
        total = mixed(total, unary_at(wide, op, *a));
    }
    total
}

fn conversions(op: Convert, edges: &[u64]) -> u64 {
    let mut total = 0;
    for a in edges {
        let operand = match op {
            Convert::WrapI64 => *a,
            Convert::ExtendI32S => u64::from(low(*a)),
            Convert::ExtendI32U => u64::from(low(*a)),
        };
        total = mixed(total, answer_of(Ok(convert(op, operand))));
    }
    total
}

#[test]
fn edge_values(rt: HostRuntime) -> Result<(), Fail> {
    let narrow = edges(rt.alloc(), 1 << 31)?;
    let wide = edges(rt.alloc(), 1 << 63)?;
    for (op, wanted) in &BINARY_32 {
        assert_eq!(rt; binaries(false, *op, &narrow), *wanted, "i32 {op:?}");
    }
    for (op, wanted) in &BINARY_64 {
        assert_eq!(rt; binaries(true, *op, &wide), *wanted, "i64 {op:?}");
    }
    for (op, wanted) in &COMPARE_32 {
        assert_eq!(rt; compares(false, *op, &narrow), *wanted, "i32 {op:?}");
    }
    for (op, wanted) in &COMPARE_64 {
        assert_eq!(rt; compares(true, *op, &wide), *wanted, "i64 {op:?}");
    }
    for (op, wanted) in &UNARY_32 {
        assert_eq!(rt; unaries(false, *op, &narrow), *wanted, "i32 {op:?}");
    }
    for (op, wanted) in &UNARY_64 {
        assert_eq!(rt; unaries(true, *op, &wide), *wanted, "i64 {op:?}");
    }
    assert_eq!(rt; conversions(Convert::WrapI64, &wide), CONVERT[0].1);
    assert_eq!(rt; conversions(Convert::ExtendI32S, &narrow), CONVERT[1].1);
    assert_eq!(rt; conversions(Convert::ExtendI32U, &narrow), CONVERT[2].1);
    Ok(())
}

#[test]
fn worked_row(rt: HostRuntime) {
    assert_eq!(rt;
        i32_binary(Binary::DivS, 2_147_483_648, 4_294_967_295),
        Err(TrapKind::Overflow)
    );
    assert_eq!(rt;
        i32_binary(Binary::RemS, 2_147_483_648, 4_294_967_295),
        Ok(0)
    );
    assert_eq!(rt; i32_binary(Binary::DivS, 1, 0), Err(TrapKind::DivideByZero));
    assert_eq!(rt; i32_binary(Binary::Shl, 1, 33), Ok(2));
    assert_eq!(rt; i32_test(Test::Eqz, 0), 1);
    assert_eq!(rt; i64_test(Test::Eqz, 1 << 63), 0);
}

const BINARY_32: [(Binary, u64); 15] = [
    (Binary::Add, 0x47d92ad1681820fd),
    (Binary::Sub, 0x6905bb8769c9490b),
    (Binary::Mul, 0x167b29fa0733bccc),
    (Binary::DivS, 0xd4802ea19e27a17d),
    (Binary::DivU, 0x47806f947b91d765),
    (Binary::RemS, 0xbef28b2f7773ec97),
    (Binary::RemU, 0xb6b31184f8a715df),
    (Binary::And, 0xe0b6894285e78432),
    (Binary::Or, 0x1e9b427e02f59f5e),
    (Binary::Xor, 0x0847ad2a9dd31dbf),
    (Binary::Shl, 0xc6c621c7192ed3ab),
    (Binary::ShrS, 0xe6a2f3aaf6a9ffd6),
    (Binary::ShrU, 0xf5a752dc3c935d66),
    (Binary::Rotl, 0x7313a7dba1fa1ce3),
    (Binary::Rotr, 0x2bd7c992c928116e),
];

const COMPARE_32: [(Compare, u64); 10] = [
    (Compare::Eq, 0x95ba8527384d37e6),
    (Compare::Ne, 0x97d7095c14292371),
    (Compare::LtS, 0xe34e367f3232adca),
    (Compare::LtU, 0xc99a9ea9eb25ff4a),
    (Compare::GtS, 0x7eebc6cc02bb783a),
    (Compare::GtU, 0x989f5ea149c826ba),
    (Compare::LeS, 0xaea5c7b749bae31d),
    (Compare::LeU, 0x94f22fe202ae349d),
    (Compare::GeS, 0x4a4358041a43ad8d),
    (Compare::GeU, 0x63f6efd961505c0d),
];

const UNARY_32: [(Unary, u64); 3] = [
    (Unary::Clz, 0x9d8d3fd5538b995a),
    (Unary::Ctz, 0x19e4864f50b65807),
    (Unary::Popcnt, 0x6bdfb438c485b1e4),
];

const BINARY_64: [(Binary, u64); 15] = [
    (Binary::Add, 0x5eb3d34874e0ecfd),
    (Binary::Sub, 0xa4be2cf8e2f9e28b),
    (Binary::Mul, 0x59a14bdbe59d664c),
    (Binary::DivS, 0x82d72805dbffae1d),
    (Binary::DivU, 0xc43be0d43e996fc5),
    (Binary::RemS, 0x2dca8df2e7e23ed7),
    (Binary::RemU, 0x3b768e86fa59949f),
    (Binary::And, 0xfc4e1faad37a67b2),
    (Binary::Or, 0x912e5148ba50515e),
    (Binary::Xor, 0xc3a8cf48ffbfb5bf),
    (Binary::Shl, 0x79428f025bbcc7d6),
    (Binary::ShrS, 0xc7351a1e7ae02496),
    (Binary::ShrU, 0xfe9b702e87f3aa26),
    (Binary::Rotl, 0x831312dc92132323),
    (Binary::Rotr, 0x33f2023baf45ca2e),
];

const COMPARE_64: [(Compare, u64); 10] = [
    (Compare::Eq, 0x8730123243da0006),
    (Compare::Ne, 0x90a4085cf64786d1),
    (Compare::LtS, 0x20ac495469bbd7ba),
    (Compare::LtU, 0x2b17e0da5abd063a),
    (Compare::GtS, 0x9ec05cb3a5757b2a),
    (Compare::GtU, 0x9454c52db4744caa),
    (Compare::LeS, 0x7913bddb94ac0bad),
    (Compare::LeU, 0x837f556185ad3a2d),
    (Compare::GeS, 0xf727d13ad065af1d),
    (Compare::GeU, 0xecbc39b4df64809d),
];

const UNARY_64: [(Unary, u64); 3] = [
    (Unary::Clz, 0xc801e165d9a8226a),
    (Unary::Ctz, 0x376672a90671d177),
    (Unary::Popcnt, 0x490dd38e6a09f6e4),
];

const CONVERT: [(Convert, u64); 3] = [
    (Convert::WrapI64, 0xd0c91dcb4d40195c),
    (Convert::ExtendI32S, 0xf238833cd9ca029c),
    (Convert::ExtendI32U, 0xf23b6666d9ca029c),
];
