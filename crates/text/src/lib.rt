// Text by value, in ASCII: at most 64 bytes, and how many there are. Numbers are in decimal, a negative one behind a
// minus: rule 11.3.
#![tactic(auto)]

ghost use Rattle.std.specs.Prelude.{◌≡◌, [], ◌∷◌};
ghost use Rattle.text.specs.Text.{decimal, digits, pushed, signed_decimal, text_of};

// The bytes past the length are zero in a text made here.
#[derive(Clone, Copy, Debug, PartialEq, Eq)]
pub struct Text {
    pub bytes: [u8; Text::ROOM],
    pub length: usize,
}

impl Text {
    pub const ROOM: usize = 64;

    pub fn empty() -> Text
        ensures { result ≡ text_of [] }
    {
        Text {
            bytes: [0; Text::ROOM],
            length: 0,
        }
    }
}

// A byte more at the end, where there is room.
#[tactic(auto, unfolding(crate::specs::Text::pushed))]
pub fn push(t: Text, b: u8) -> Text
    ensures { result ≡ pushed t (b ∷ []) }
{
    let mut next = t;
    if t.length < Text::ROOM {
        next.bytes[t.length] = b;
        next.length += 1;
    }
    next
}

// Bytes more at the end, as long as there is room.
#[tactic(auto, unfolding(crate::specs::Text::pushed))]
pub fn push_all(t: Text, s: &[u8]) -> Text
    ensures { result ≡ pushed t s.now }
{
    let mut next = t;
    for &b in s {
        next = push(next, b);
    }
    next
}

// At most k decimal digits of n.
fn push_digits(t: Text, k: u32, n: u64) -> Text
    ensures { result ≡ pushed t (digits k n) }
{
    if k == 0 {
        return t;
    }
    let digit = b'0' + (n % 10) as u8;
    if n < 10 {
        return push(t, digit);
    }
    push(push_digits(t, k - 1, n / 10), digit)
}

// A number in decimal.
pub fn push_decimal(t: Text, n: u64) -> Text
    ensures { result ≡ pushed t (decimal n) }
{
    push_digits(t, 20, n)
}

// A signed number in decimal, with a leading minus where it is negative.
pub fn push_signed(t: Text, z: i64) -> Text
    ensures { result ≡ pushed t (signed_decimal z) }
{
    if z < 0 {
        return push_decimal(push(t, b'-'), z.unsigned_abs());
    }
    push_decimal(t, z.unsigned_abs())
}
