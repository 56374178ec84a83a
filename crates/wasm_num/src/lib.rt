//! Operations on numbers of 32 and 64 bits (sections 4.3.2 and 4.3.4 of the WebAssembly Core Specification 1.0).
//!
//! A number is its bits, and the signed operations see it as two's complement. What each operation gives stands in
//! `specs/Numbers.antt`; that rotations, counts, signed shifts and remainders are so defined is told by the laws. No operation takes memory. Division and remainder alone may have no result.
#![tactic(auto)]

mod conversions;
mod laws;
mod narrow;
mod wide;

pub use conversions::convert;
pub use laws::{
    counts_leading_zeros, counts_ones, counts_trailing_zeros, remainder_has_the_sign, rotates_left,
    rotates_right, shifts_the_sign,
};
pub use narrow::{i32_binary, i32_compare, i32_test, i32_unary};
pub use wide::{i64_binary, i64_compare, i64_test, i64_unary};

#[cfg(test)]
mod tests;
