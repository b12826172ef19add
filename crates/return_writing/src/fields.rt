// Single fields of a return, written into a buffer with room for them.
ghost use Rattle.std.specs.Prelude.{◌≡◌, cond, ◌+◌, ◌*◌, ◌≤◌, length};
ghost use Rattle.outage.specs.Log.{slots};
ghost use Rattle.year.specs.Year.{line_slots};
ghost use Rattle.codec.specs.Buffers.{Wrote};
ghost use Rattle.outage_field.specs.Field.{most_entry_bytes};
ghost use Rattle.return_format.specs.Form.{factors, mark, wpa};
ghost use Rattle.return_writing.specs.Written.{rest_size};

use codec::{put, put_head, put_number, unsigned};
use return_format::{Factors, Return};
use year::Year;

// 05: the partial-year factors, unless a return of the year leaves them out.
pub(crate) fn put_factors(out: &mut [u8], at: usize, year: u8, f: Factors) -> usize
    requires { at + length ((factors year).write (f.pyc, f.pyf)) ≤ length out.old }
    ensures { Wrote out.old at ((factors year).write (f.pyc, f.pyf)) out.new result }
{
    if f.are_left_out(year) {
        return at;
    }
    let p = put_head(out, at, Return::FACTORS, 4);
    let q = put(out, p, 2, f.pyc as u64);
    put(out, q, 2, f.pyf as u64)
}

// 08: the mark of an Exceptional Event.
pub(crate) fn put_mark(out: &mut [u8], at: usize, exceptional: bool) -> usize
    requires { at + length (mark.write (cond exceptional 1 0)) ≤ length out.old }
    ensures { Wrote out.old at (mark.write (cond exceptional 1 0)) out.new result }
{
    if exceptional {
        return put_number(out, at, Return::EXCEPTIONAL, 1, 1);
    }
    at
}

// 09: the within-period adjustment, unless it is 0.
pub(crate) fn put_wpa(out: &mut [u8], at: usize, paid: i64) -> usize
    requires { at + length (wpa.write paid) ≤ length out.old }
    ensures { Wrote out.old at (wpa.write paid) out.new result }
{
    if paid == 0 {
        return at;
    }
    put_number(out, at, Return::WPA, 8, unsigned(paid))
}

// What the factors, the mark and the adjustment take.
fn size_of_rest(y: &Year) -> usize
    ensures { (result ≡ rest_size y.now) × (result ≤ 22) }
{
    let f = Factors {
        pyc: y.pyc,
        pyf: y.pyf,
    };
    let factors = if f.are_left_out(y.number) { 0 } else { 7 };
    let mark = if y.exceptional { 4 } else { 0 };
    let paid = if y.wpa == 0 { 0 } else { 11 };
    factors + (mark + paid)
}

// How many bytes the return of a year has whose outages take so many.
pub(crate) fn size_of(y: &Year, outages: usize) -> usize
    requires { (y.now.line_count ≤ line_slots) × (outages ≤ most_entry_bytes * slots) }
    ensures { result ≡ 23 + (13 * y.now.line_count + (outages + rest_size y.now)) }
{
    23 + (13 * y.line_count + (outages + size_of_rest(y)))
}
