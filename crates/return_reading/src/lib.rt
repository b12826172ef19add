// Reads a yearly return from bytes: rules, section 10.
#![tactic(auto)]

mod fields;
mod rows;

ghost use Rattle.std.specs.Prelude.{◌≡◌, true, ◌≤◌, length};
ghost use Rattle.calendar.specs.Years.{good_year_number};
ghost use Rattle.return_reading.specs.Steps.{RequiredRead, TailRead};
ghost use Rattle.return_reading.specs.Reading.{ReturnGives};

use codec::number_field;
use fields::{Read, factors_from, mark_from, wpa_from};
use outage::Log;
use refusals::RefusedAt;
use return_format::Return;
use rows::{Lines, lines_from, outages_from};
use year::Year;

// What follows the factors.
#[derive(Clone, Copy)]
struct Tail {
    lines: Lines,
    log: Log,
    exceptional: bool,
    wpa: i64,
}

fn tail_from(s: &[u8], from: usize, year: u8) -> Read<Tail>
    requires { (from ≤ length s.now) × (good_year_number year ≡ true) }
    ensures { TailRead year s.now from result }
{
    let lines = lines_from(s, from);
    let log = outages_from(s, lines.next, year);
    let exceptional = mark_from(s, log.next);
    let wpa = wpa_from(s, exceptional.next);
    Read {
        value: Tail {
            lines: lines.value,
            log: log.value,
            exceptional: exceptional.value,
            wpa: wpa.value,
        },
        next: wpa.next,
    }
}

// The four required fields.
#[derive(Clone, Copy)]
struct Head {
    number: u8,
    pppi: u32,
    rate: u32,
    aic: u16,
}

impl Head {
    // How many bytes the four fields have.
    const BYTES: usize = 23;
}

// The four required fields, or the place of the first that is not there.
fn required_of(s: &[u8]) -> Result<Head, RefusedAt>
    ensures { RequiredRead s.now result }
{
    let (least, most) = (u64::from(Year::FIRST), u64::from(Year::LAST));
    let number = number_field(s, 0, Return::YEAR, 1, least, most).ok_or(Return::refused(0))?;
    let (least, most) = (u64::from(Year::LEAST_PPPI), u64::from(Year::MOST_PPPI));
    let pppi = number_field(s, 4, Return::PPPI, 4, least, most).ok_or(Return::refused(4))?;
    let (least, most) = (u64::from(Year::LEAST_RATE), u64::from(Year::MOST_RATE));
    let rate = number_field(s, 11, Return::RATE, 4, least, most).ok_or(Return::refused(11))?;
    let most = u64::from(Year::MOST_AIC);
    let aic = number_field(s, 18, Return::AIC, 2, 0, most).ok_or(Return::refused(18))?;
    Ok(Head {
        number: number as u8,
        pppi: pppi as u32,
        rate: rate as u32,
        aic: aic as u16,
    })
}

// The year that all of the bytes are a return of; else 13, at the place of the first byte of the first field that cannot be
// taken where it stands.
pub fn read_return(s: &[u8]) -> Result<Year, RefusedAt>
    ensures { ReturnGives s.now result }
{
    if Return::MOST_BYTES < s.len() {
        return Err(Return::refused(Return::MOST_BYTES));
    }
    let head = required_of(s)?;
    let factors = factors_from(s, Head::BYTES, head.number).ok_or(Return::refused(Head::BYTES))?;
    let tail = tail_from(s, factors.next, head.number);
    if tail.next < s.len() {
        return Err(Return::refused(tail.next));
    }
    let lines = tail.value.lines.lines;
    Ok(Year {
        number: head.number,
        pppi: head.pppi,
        rate: head.rate,
        aic: head.aic,
        pyc: factors.value.pyc,
        pyf: factors.value.pyf,
        lines,
        line_count: tail.value.lines.count,
        exceptional: tail.value.exceptional,
        wpa: tail.value.wpa,
        log: tail.value.log,
    })
}
