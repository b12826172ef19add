// The Relevant Years of the regime: rules 2.1 and 2.2.
#![tactic(auto)]

mod ends;

ghost use Rattle.std.specs.Prelude.{◌≡◌, suc, ◌+◌, ◌<◌, ◌≤◌};
ghost use Rattle.calendar.specs.Years.{days_in, is_leap, last_year, year_start, MinutesGives};

pub use ends::is_year_end;
use refusals::Refusal;

// The numbers of the first and the last Relevant Year.
pub const FIRST_YEAR: u8 = 1;

pub const LAST_YEAR: u8 = 25;

// Relevant Year 1 is in the calendar year after this one: rule 2.1.
const CALENDAR_YEAR_BEFORE: u32 = 2018;

// Minute 0 is so many days into it: rule 1.4.
pub const DAYS_BEFORE: u32 = 30;

pub const MINUTES_A_DAY: u32 = 1440;

// A year's first minute and the minute that it ends at.
#[derive(Clone, Copy, Debug, PartialEq, Eq)]
pub struct YearMinutes {
    pub first: u32,
    pub end: u32,
}

// Whether a calendar year has a leap day: 4 divides it, and 100 does not, unless 400 does. Rule 2.1.
pub fn is_leap(year: u32) -> bool
    ensures { result ≡ is_leap year }
{
    year % 400 == 0 || (year % 4 == 0 && year % 100 != 0)
}

// The days of a calendar year.
pub fn days_in(year: u32) -> u32
    ensures { result ≡ days_in year }
{
    if is_leap(year) { 366 } else { 365 }
}

// The minutes of a year from 1 to 24: those of its calendar year, without the days before minute 0 in year 1.
fn year_length(year: u8) -> u32
    requires { (1 ≤ year) × (year < last_year) }
    ensures { year_start year + result ≡ year_start (suc year) }
{
    let days = days_in(CALENDAR_YEAR_BEFORE + u32::from(year));
    if year == FIRST_YEAR {
        return (days - DAYS_BEFORE) * MINUTES_A_DAY;
    }
    days * MINUTES_A_DAY
}

// Where the year after one from 1 to 24 starts, from where that one does.
pub(crate) fn next_start(start: u32, year: u8) -> u32
    requires { (1 ≤ year) × (year < last_year) × (start ≡ year_start year) }
    ensures { result ≡ year_start (suc year) }
{
    start + year_length(year)
}

// The first minute of a year from 1 to 25, found by passing year after year from year 1 on.
fn year_start(year: u8) -> u32
    requires { (1 ≤ year) × (year ≤ last_year) }
    ensures { result ≡ year_start year }
{
    let mut start = 0;
    for passing in FIRST_YEAR..year {
        start = next_start(start, passing);
    }
    start
}

// The first minute of a Relevant Year, and the minute that it ends at: where the next begins, or for year 25 at the
// regime end handed in.
pub fn year_minutes(year: u8, regime_end: u32) -> Result<YearMinutes, Refusal>
    ensures { MinutesGives year regime_end result }
{
    if year < FIRST_YEAR || LAST_YEAR < year {
        return Err(Refusal::BadYear);
    }
    let first = year_start(year);
    let end = if year == LAST_YEAR {
        regime_end
    } else {
        next_start(first, year)
    };
    Ok(YearMinutes { first, end })
}
