// What a 64-bit float says in whole numbers and in halves, and the floats of these, exactly: rules 19.1 and 19.2.
#![tactic(auto)]

ghost use Rattle.std.specs.Prelude.{◌≡◌};
ghost use Rattle.std.specs.Float.{binary64};
ghost use Rattle.std.specs.Float.Ieee.{of_int};
ghost use Rattle.floats.specs.Floats.{half_days, whole_pounds};

// Whole pounds of a workbook.
pub const LEAST_WHOLE: i64 = -30_000_000_000;

pub const MOST_WHOLE: i64 = 30_000_000_000;

// Twice a day number, which may end in a half.
pub const FIRST_HALVES: u64 = 122;

pub const LAST_HALVES: u64 = 146_100;

// The whole number of magnitude at most 3 x 10^10 that a float is: cut, and compared back. Minus zero is 0.
#[tactic(auto, using(crate::proofs::Pounds::too_small, crate::proofs::Pounds::too_large, crate::proofs::Pounds::whole_test))]
pub fn whole_of(x: f64) -> Option<i64>
    ensures { result ≡ whole_pounds x }
{
    let n = std::num::saturating_f64_to_i64(x);
    if n < LEAST_WHOLE || MOST_WHOLE < n {
        return None;
    }
    (std::num::nearest_i64_to_f64(n) == x).then_some(n)
}

// The float nearest to a whole number: the number itself to 2^53, so for all pounds of a workbook.
pub fn float_of(z: i64) -> f64
    ensures { result ≡ of_int binary64 z }
{
    std::num::nearest_i64_to_f64(z)
}

// Twice the day number from 61 to 73,050 that a float is: doubled, cut, and compared back.
#[tactic(auto, using(crate::proofs::Days::too_early, crate::proofs::Days::too_late, crate::proofs::Days::halves_test))]
pub fn halves_of(x: f64) -> Option<u64>
    ensures { result ≡ half_days x }
{
    let n = std::num::saturating_f64_to_u64(x * 2.0);
    if n < FIRST_HALVES || LAST_HALVES < n {
        return None;
    }
    (std::num::nearest_u64_to_f64(n) * 0.5 == x).then_some(n)
}
