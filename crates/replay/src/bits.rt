// Floats by their bits. Every pattern of a NaN is one NaN.
use codec::number;

// The float of these bits. Past the pattern of an infinity, the sign aside, they are a NaN's.
fn of_bits(bits: u64) -> f64 {
    if 9_218_868_437_227_405_312 < bits % 9_223_372_036_854_775_808 {
        return 0.0 / 0.0;
    }
    f64::from_bits(bits)
}

// The bits of a float.
pub(crate) fn bits_of(x: f64) -> u64 {
    if x != x {
        return 9_221_120_237_041_090_560;
    }
    f64::to_bits(x)
}

// The float of eight bytes from `at` on.
pub(crate) fn float_at(s: &[u8], at: usize) -> f64 {
    of_bits(number(s, at, 8))
}
