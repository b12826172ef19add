// Signed whole pounds, in the full range of an i64: the few functions on signed numbers that all others are made of.
// Each answers on every input. What does not fit saturates: the end of the range stands for it.
#![tactic(auto)]

mod rounding;

ghost use Rattle.std.specs.Prelude.{◌≡◌, leb, pos, nat_abs, neg_ℤ, ◌+ℤ◌, ◌-ℤ◌};
ghost use Rattle.std.specs.Int.Signed.{lt_z};
ghost use Rattle.money.specs.Pounds.{saturated};

pub use rounding::{rounded, scaled};

// The magnitude, of the least i64 too.
pub fn magnitude(z: i64) -> u64
    ensures { result ≡ nat_abs z }
{
    z.unsigned_abs()
}

pub fn is_negative(z: i64) -> bool
    ensures { result ≡ lt_z z (pos 0) }
{
    z < 0
}

pub fn below(a: i64, b: i64) -> bool
    ensures { result ≡ lt_z a b }
{
    a < b
}

// Whether the magnitude is at most the limit.
pub fn within(z: i64, limit: u64) -> bool
    ensures { result ≡ leb (nat_abs z) limit }
{
    magnitude(z) <= limit
}

// n pounds to the good, saturated.
pub fn credit(n: u64) -> i64
    ensures { result ≡ saturated (pos n) }
{
    i64::try_from(n).unwrap_or(i64::MAX)
}

// n pounds to the bad, saturated.
pub fn debit(n: u64) -> i64
    ensures { result ≡ saturated (neg_ℤ (pos n)) }
{
    0_i64.saturating_sub_unsigned(n)
}

// The sum, saturated.
pub fn plus(a: i64, b: i64) -> i64
    ensures { result ≡ saturated (a +ℤ b) }
{
    a.saturating_add(b)
}

// The difference, saturated.
pub fn minus(a: i64, b: i64) -> i64
    ensures { result ≡ saturated (a -ℤ b) }
{
    a.saturating_sub(b)
}
