// What `oldsheet` prints of an outage: rules, section 16.
#![tactic(auto)]

ghost use Rattle.std.specs.Prelude.{◌≡◌, [], ◌<◌, ◌≤◌};
ghost use Rattle.entries.specs.Row.{last_regime_end};
ghost use Rattle.text.specs.Text.{pushed, text_of};
ghost use Rattle.sheet_printout.specs.Dates.{date_of, day_in_year, day_on, moment_of, month_days, month_on, named_cause, outage_line, time_of, two_digits, year_on};
ghost use Rattle.sheet_printout.specs.Printout.{PrintMinuteGives, PrintOutageGives};

use calendar::{DAYS_BEFORE, MINUTES_A_DAY, days_in, is_leap};
use entries::{Entry, LAST_REGIME_END};
use refusals::Refusal;
use text::{Text, push, push_decimal};

// Minute 0 is 30 days into this calendar year: rule 1.4.
const FIRST_CALENDAR_YEAR: u32 = 2019;

// The cause that a line leaves out: rule 16.2.
const UNNAMED_CAUSE: u8 = 1;

// A minute up to the last regime end, which has a date.
#[derive(Clone, Copy)]
struct Minute {
    at: u32,
    ghost in_range: { at ≤ last_regime_end },
}

// A calendar year, and how many of its days are past.
#[derive(Clone, Copy, Debug, PartialEq, Eq)]
struct InYear {
    year: u32,
    day: u32,
}

#[derive(Clone, Copy, Debug, PartialEq, Eq)]
struct Date {
    year: u32,
    month: u32,
    day: u32,
}

// The days of a month.
fn month_days(year: u32, month: u32) -> u32
    ensures { result ≡ month_days year month }
{
    match month {
        2 => if is_leap(year) { 29 } else { 28 },
        4 | 6 | 9 | 11 => 30,
        _ => 31,
    }
}

impl Minute {
    // Its calendar year, found by passing year after year from 2019 on.
    fn year(self) -> InYear
        ensures { (result.year ≡ year_on self.at) × (result.day ≡ day_in_year self.at) }
    {
        let mut year = FIRST_CALENDAR_YEAR;
        let mut day = self.at / MINUTES_A_DAY + DAYS_BEFORE;
        while days_in(year) <= day {
            day -= days_in(year);
            year += 1;
        }
        InYear { year, day }
    }

    // Its date, found by passing month after month of its year.
    fn date(self) -> Date
        ensures { (result.year ≡ year_on self.at) × (result.month ≡ month_on self.at) × (result.day ≡ day_on self.at) }
    {
        let within = self.year();
        let year = within.year;
        let mut day = within.day;
        let mut month: u32 = 1;
        while month_days(year, month) <= day {
            day -= month_days(year, month);
            month += 1;
        }
        Date {
            year,
            month,
            day: day + 1,
        }
    }
}

// A number below 100 in two digits.
#[tactic(auto, using(text::proofs::Laws::pushes))]
fn push_two(t: Text, n: u32) -> Text
    requires { n < 100 }
    ensures { result ≡ pushed t (two_digits n) }
{
    let tens = push(t, b'0' + (n / 10) as u8);
    push(tens, b'0' + (n % 10) as u8)
}

// The date of a minute: rule 16.1.
#[tactic(auto, using(text::proofs::Laws::pushes), unfolding(crate::specs::Dates::date_of))]
fn push_date(t: Text, minute: Minute) -> Text
    ensures { result ≡ pushed t (date_of minute.at) }
{
    let date = minute.date();
    let year = push_decimal(t, date.year as u64);
    let after_year = push(year, b'-');
    let month = push_two(after_year, date.month);
    let after_month = push(month, b'-');
    push_two(after_month, date.day)
}

// Its time: rule 16.1.
#[tactic(auto, using(text::proofs::Laws::pushes), unfolding(crate::specs::Dates::time_of))]
fn push_time(t: Text, minute: u32) -> Text
    ensures { result ≡ pushed t (time_of minute) }
{
    let hour = push_two(t, minute / 60 % 24);
    let after_hour = push(hour, b':');
    push_two(after_hour, minute % 60)
}

// Its date and its time: rule 16.1.
#[tactic(auto, using(text::proofs::Laws::pushes), unfolding(crate::specs::Dates::moment_of))]
fn push_moment(t: Text, minute: Minute) -> Text
    ensures { result ≡ pushed t (moment_of minute.at) }
{
    let date = push_date(t, minute);
    let after_date = push(date, b' ');
    push_time(after_date, minute.at)
}

// The cause behind a space, where it is not 1: rule 16.2.
#[tactic(auto, using(crate::proofs::Printing::first_cause, crate::proofs::Printing::other_cause))]
fn push_cause(t: Text, cause: u8) -> Text
    ensures { result ≡ pushed t (named_cause cause) }
{
    if cause == UNNAMED_CAUSE {
        return t;
    }
    let after_mw = push(t, b' ');
    push_decimal(after_mw, cause as u64)
}

// The line of an outage: rule 16.2.
#[tactic(auto, using(text::proofs::Laws::pushes), unfolding(crate::specs::Dates::outage_line))]
fn outage_line(e: Entry) -> Text
    requires { (e.start ≤ last_regime_end) × (e.end ≤ last_regime_end) }
    ensures { result ≡ pushed (text_of []) (outage_line e) }
{
    let start = push_moment(Text::empty(), Minute { at: e.start });
    let after_start = push(start, b' ');
    let end = push_moment(after_start, Minute { at: e.end });
    let after_end = push(end, b' ');
    let mw = push_decimal(after_end, e.mw as u64);
    let whole = push_cause(mw, e.cause);
    push(whole, b'\n')
}

// The date and time of a minute, in UTC, as `2024-03-30 23:30`; past 13,632,480 it is 7: rules 16.1 and 16.3.
pub fn print_minute(minute: u32) -> Result<Text, Refusal>
    ensures { PrintMinuteGives minute result }
{
    if LAST_REGIME_END < minute {
        return Err(Refusal::BadStretch);
    }
    Ok(push_moment(Text::empty(), Minute { at: minute }))
}

// An outage as a line, as `2024-03-30 23:30 2024-03-31 01:30 500` and a newline, and with a cause other than 1 as
// `2024-03-30 23:30 2024-03-31 01:30 500 2`; where it starts or ends past 13,632,480 it is 7: rules 16.2 and 16.3.
pub fn print_outage(e: Entry) -> Result<Text, Refusal>
    ensures { PrintOutageGives e result }
{
    if LAST_REGIME_END < e.start || LAST_REGIME_END < e.end {
        return Err(Refusal::BadStretch);
    }
    Ok(outage_line(e))
}
