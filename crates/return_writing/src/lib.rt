// Writes a yearly return into a lent buffer: rules, section 10.
#![tactic(auto)]

mod checking;
mod fields;
mod rows;

ghost use Rattle.std.specs.Prelude.{◌≡◌, true, ◌≤◌, length};
ghost use Rattle.codec.specs.Buffers.{Wrote};
ghost use Rattle.return_format.specs.Form.{required};
ghost use Rattle.return_format.specs.Return.{return_of, valid_year};
ghost use Rattle.return_writing.specs.Written.{WriteGives};

use checking::check_writable;
use codec::put_number;
use fields::{put_factors, put_mark, put_wpa, size_of};
use refusals::Refusal;
use return_format::{Factors, Return};
use rows::{put_lines, put_outages, size_of_outages};
use year::Year;

// The four required fields.
fn put_required(y: &Year, out: &mut [u8]) -> usize
    requires { length (required.write (y.now.number, (y.now.pppi, (y.now.rate, y.now.aic)))) ≤ length out.old }
    ensures { Wrote out.old 0 (required.write (y.now.number, (y.now.pppi, (y.now.rate, y.now.aic)))) out.new result }
{
    let a = put_number(out, 0, Return::YEAR, 1, y.number as u64);
    let b = put_number(out, a, Return::PPPI, 4, y.pppi as u64);
    let c = put_number(out, b, Return::RATE, 4, y.rate as u64);
    put_number(out, c, Return::AIC, 2, y.aic as u64)
}

// The bytes of a valid year at the front of a buffer with room for them.
fn put_year(y: Year, out: &mut [u8]) -> usize
    requires { (valid_year y ≡ true) × (length (return_of y) ≤ length out.old) }
    ensures { Wrote out.old 0 (return_of y) out.new result }
{
    let f = Factors {
        pyc: y.pyc,
        pyf: y.pyf,
    };
    let a = put_required(&y, out);
    let b = put_factors(out, a, y.number, f);
    let c = put_lines(out, b, &y.lines[..y.line_count]);
    let d = put_outages(out, c, &y.log.entries[..y.log.count]);
    let e = put_mark(out, d, y.exceptional);
    put_wpa(out, e, y.wpa)
}

// The return of a year, at the front of the buffer, and its length; or 1, 9 or 14, and not a byte written.
pub fn write_return(y: Year, out: &mut [u8]) -> Result<usize, Refusal>
    ensures { WriteGives y out.old result out.new }
{
    check_writable(y)?;
    let outages = size_of_outages(&y.log.entries[..y.log.count]);
    let size = size_of(&y, outages);
    if out.len() < size {
        return Err(Refusal::NoRoom);
    }
    Ok(put_year(y, out))
}
