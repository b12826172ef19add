// Tagged fields in the caller's bytes: rule 10.1. A slice and a place go in; where the bytes are not
// there, or there is no room, the answer says so and nothing is written.
#![tactic(auto)]

mod laying;

ghost use Rattle.std.specs.Prelude.{◌≡◌, ◌≤◌, drop, length};
ghost use Rattle.std.specs.Int.{w64};
ghost use Rattle.std.proofs.Common.{to_z};
ghost use Rattle.codec.specs.Numbers.{spelled};
ghost use Rattle.codec.specs.Fields.{framed};
ghost use Rattle.codec.specs.Leaves.{amount_at, number_field, number_at};

pub use laying::{put, put_head, put_number, unsigned};
use money::within;

// The most bytes of a number.
const WIDEST: usize = 8;

// The number that these bytes spell, high byte first.
fn spell(bytes: &[u8]) -> u64
    requires { length bytes.now ≤ 8 }
    ensures { result ≡ spelled 0 bytes.now }
{
    let mut v: u64 = 0;
    for b in bytes {
        v = v * 256 + u64::from(*b);
    }
    v
}

// The number of n bytes from `at` on; 0 where they are not there.
pub fn number(s: &[u8], at: usize, n: usize) -> u64
    ensures { result ≡ number_at n (drop at s.now) }
{
    if WIDEST < n || s.len() < at || s.len() - at < n {
        return 0;
    }
    spell(&s[at..at + n])
}

// Whether a field of this tag and length, not cut, starts at `at`.
pub fn is_field(s: &[u8], at: usize, tag: u8, len: usize) -> bool
    ensures { result ≡ framed tag len (drop at s.now) }
{
    if s.len() < at || s.len() - at < 3 {
        return false;
    }
    s[at] == tag && number(s, at + 1, 2) == len as u64 && len <= s.len() - at - 3
}

// The field of one number from lo to hi that starts at `at`.
pub fn number_field(s: &[u8], at: usize, tag: u8, len: usize, lo: u64, hi: u64) -> Option<u64>
    ensures { result ≡ number_field tag len lo hi (drop at s.now) }
{
    if WIDEST < len || !is_field(s, at, tag, len) {
        return None;
    }
    let v = number(s, at + 3, len);
    (lo <= v && v <= hi).then_some(v)
}

// The number that 64 bits are in two's complement.
pub fn signed(u: u64) -> i64
    ensures { result ≡ to_z w64 u }
{
    u.cast_signed()
}

// The signed number of eight bytes from `at` on, of at most this magnitude.
pub fn amount(s: &[u8], at: usize, most: u64) -> Option<i64>
    ensures { result ≡ amount_at most (drop at s.now) }
{
    if s.len().saturating_sub(at) < WIDEST {
        return None;
    }
    let z = signed(number(s, at, WIDEST));
    within(z, most).then_some(z)
}
