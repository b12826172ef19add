// Numbers and heads of fields written into a lent buffer.
ghost use Rattle.std.specs.Prelude.{◌≡◌};
ghost use Rattle.std.specs.Int.{w64};
ghost use Rattle.std.proofs.Common.{of_z};
ghost use Rattle.codec.specs.Fields.{head};
ghost use Rattle.codec.specs.Buffers.{after, laid};
ghost use Rattle.codec.specs.Leaves.{number_bytes, number_field_bytes};

use super::WIDEST;

// Writes a number of n bytes from `at` on and answers the place after it; where there is no room, nothing and `at`.
pub fn put(out: &mut [u8], at: usize, n: usize, v: u64) -> usize
    ensures { (out.new ≡ laid out.old at (number_bytes n v)) × (result ≡ after out.old at (number_bytes n v)) }
{
    if WIDEST < n || out.len() < at || out.len() - at < n {
        return at;
    }
    let bytes = v.to_be_bytes();
    out[at..at + n].copy_from_slice(&bytes[WIDEST - n..]);
    at + n
}

// Writes a tag and two length bytes from `at` on and answers the place after them; where there is no room, nothing and `at`.
pub fn put_head(out: &mut [u8], at: usize, tag: u8, len: u16) -> usize
    ensures { (out.new ≡ laid out.old at (head tag len)) × (result ≡ after out.old at (head tag len)) }
{
    if out.len().saturating_sub(at) < 3 {
        return at;
    }
    out[at] = tag;
    let bytes = len.to_be_bytes();
    out[at + 1..at + 3].copy_from_slice(&bytes);
    at + 3
}

// Writes a field of one number of n bytes from `at` on and answers the place after it; where there is no room, nothing and `at`.
pub fn put_number(out: &mut [u8], at: usize, tag: u8, n: u16, v: u64) -> usize
    ensures { (out.new ≡ laid out.old at (number_field_bytes tag n v))
        × (result ≡ after out.old at (number_field_bytes tag n v)) }
{
    let width = usize::from(n);
    if WIDEST < width || out.len().saturating_sub(at) < 3 + width {
        return at;
    }
    let p = put_head(out, at, tag, n);
    put(out, p, width, v)
}

// The 64 bits of a number in two's complement.
pub fn unsigned(z: i64) -> u64
    ensures { result ≡ of_z w64 z }
{
    z.cast_unsigned()
}
