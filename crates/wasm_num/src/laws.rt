//! Laws on the definitions, in the words of section 4.3.2: k is the count that a shift or rotation takes modulo N.

ghost use Rattle.std.specs.Prelude.{◌≡◌, ◌+◌, ◌-◌, ◌*◌, ◌/◌, ◌%◌, ◌^◌, ◌<◌, ◌≤◌, ℕ, ℤ, Ok, ◌⊎◌, unsigned_abs, ◌+ℤ◌, ◌*ℤ◌};
ghost use Rattle.std.specs.Int.{Width};
ghost use Rattle.wasm_types.specs.declared.instructions.Unary.TheVariants.{Clz, Ctz, Popcnt};
ghost use Rattle.wasm_num.specs.Numbers.{size, signed, is_minus, unary, irem_s, ishr_s, irotl, irotr};

/// The k highest bits and the others change places.
pub fn rotates_left()
    ensures { (w : Width) (high low b : ℕ) → low < 2 ^ (size w - b % size w) → irotl w (high * 2 ^ (size w - b % size w) + low) b ≡ low * 2 ^ (b % size w) + high }
{}

/// The k lowest bits and the others change places.
pub fn rotates_right()
    ensures { (w : Width) (high low b : ℕ) → low < 2 ^ (b % size w) → irotr w (high * 2 ^ (b % size w) + low) b ≡ low * 2 ^ (size w - b % size w) + high }
{}

/// Zero has N of them; a number whose highest one is bit m has those above it.
pub fn counts_leading_zeros()
    ensures none { (w : Width) → unary w Clz 0 ≡ size w }
    ensures above { (w : Width) (m a : ℕ) → m < size w → 2 ^ m ≤ a → a < 2 ^ (m + 1) → unary w Clz a + (m + 1) ≡ size w }
{}

/// Zero has N of them; a number whose lowest one is bit m has m.
pub fn counts_trailing_zeros()
    ensures none { (w : Width) → unary w Ctz 0 ≡ size w }
    ensures below { (w : Width) (m n : ℕ) → m < size w → unary w Ctz ((2 * n + 1) * 2 ^ m) ≡ m }
{}

/// A bit more counts where it is a one.
pub fn counts_ones()
    ensures none { (w : Width) → unary w Popcnt 0 ≡ 0 }
    ensures zero { (w : Width) (n : ℕ) → unary w Popcnt (2 * n) ≡ unary w Popcnt n }
    ensures one { (w : Width) (n : ℕ) → unary w Popcnt (2 * n + 1) ≡ unary w Popcnt n + 1 }
{}

/// The bits that come in at the top are copies of the sign: zeros, or k ones.
pub fn shifts_the_sign()
    ensures plus { (w : Width) (a b : ℕ) → a < 2 ^ (size w - 1) → ishr_s w a b ≡ a / 2 ^ (b % size w) }
    ensures minus { (w : Width) (a b : ℕ) → 2 ^ (size w - 1) ≤ a → a < 2 ^ size w
        → ishr_s w a b + 2 ^ (size w - b % size w) ≡ a / 2 ^ (b % size w) + 2 ^ size w }
{}

/// What a multiple of the divisor leaves of the dividend, smaller than the divisor and of the dividend's sign.
pub fn remainder_has_the_sign()
    ensures { (w : Width) (a b r : ℕ) → a < 2 ^ size w → b < 2 ^ size w → irem_s w a b ≡ Ok r
        → (q : ℤ) × (q *ℤ signed w b +ℤ signed w r ≡ signed w a) × (unsigned_abs (signed w r) < unsigned_abs (signed w b))
        × ((r ≡ 0) ⊎ (is_minus (signed w r) ≡ is_minus (signed w a))) }
{}
