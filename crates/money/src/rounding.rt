// The rounding rule, 1.5: to nearest, a half to the even neighbour.
ghost use Rattle.std.specs.Prelude.{◌≡◌, ◌≤◌, ◌<◌};
ghost use Rattle.money.specs.Rounding.{rounded_of, scaled_of, up_of};

use super::{credit, debit, is_negative, magnitude, within};

// What the rest of a division by d adds to its quotient q: 1 where it rounds up, else 0.
#[tactic(auto, unfolding(crate::specs::Rounding::up_of))]
fn up(q: u64, rest: u64, d: u64) -> u64
    requires { (rest < d) × (d ≤ 1000000000000) }
    ensures { result ≡ up_of q rest d }
{
    if d < 2 * rest {
        1
    } else if d == 2 * rest {
        q % 2
    } else {
        0
    }
}

// A quotient rounded by the rest of its division, saturated: for a divisor of 1 to 10^12 and a rest below it; else 0.
#[tactic(auto, unfolding(crate::specs::Rounding::rounded_of))]
pub fn rounded(quotient: u64, rest: u64, divisor: u64) -> u64
    ensures { result ≡ rounded_of quotient rest divisor }
{
    if divisor <= rest || 1_000_000_000_000 < divisor {
        return 0;
    }
    quotient.saturating_add(up(quotient, rest, divisor))
}

// z times by, divided by over and rounded: for a magnitude of at most 10^10, a factor of at most 900,000,000 and a divisor
// that is not 0; else 0.
pub fn scaled(z: i64, by: u32, over: u32) -> i64
    ensures { result ≡ scaled_of z by over }
{
    if !within(z, 10_000_000_000) || 900_000_000 < by || over == 0 {
        return 0;
    }
    let n = magnitude(z) * u64::from(by);
    let d = u64::from(over);
    let m = rounded(n / d, n % d, d);
    if is_negative(z) { debit(m) } else { credit(m) }
}
