// The five returns of the input, each behind its length: rule 20.1.
ghost use Rattle.std.specs.Prelude.{◌≡◌};
ghost use Rattle.assessment.specs.Period.{numbers_from, one_period};
ghost use Rattle.workbook_input.specs.Input.{input_years};
ghost use Rattle.workbook_input.specs.Steps.{next_of};

use balances::Yearly;
use codec::number;
use return_reading::read_return;
use year::Year;

// How many bytes the two days have.
const DAYS: usize = 8;

// How many bytes the length of a return has.
const LENGTH: usize = 2;

// The return that comes next: its year, and how many bytes it has with its length.
#[derive(Clone, Copy)]
pub(crate) struct Next {
    pub(crate) year: Year,
    pub(crate) bytes: usize,
}

// The return that the bytes begin with, behind its length; none where it is cut, or no return.
fn next_return(s: &[u8]) -> Option<Next>
    ensures { result ≡ next_of s.now }
{
    let rest = s.get(LENGTH..)?;
    let bytes = number(s, 0, LENGTH) as usize;
    let year = read_return(rest.get(..bytes)?).ok()?;
    Some(Next {
        year,
        bytes: LENGTH + bytes,
    })
}

// Whether the numbers of the years follow one another from `number` on.
fn follow_from(years: [Year; Yearly::YEARS], number: u8) -> bool
    ensures { result ≡ numbers_from number years }
{
    for (k, y) in years.iter().enumerate() {
        if usize::from(y.number) != usize::from(number) + k {
            return false;
        }
    }
    true
}

// Whether the years are those of one assessment period, in order.
fn one_period(years: [Year; Yearly::YEARS]) -> bool
    ensures { result ≡ one_period years }
{
    let number = years[0].number;
    usize::from(number) % Yearly::YEARS == 1 && follow_from(years, number)
}

// The years of the five returns behind the two days; none where these are not the returns of one period.
pub(crate) fn read_years(s: &[u8]) -> Option<[Year; Yearly::YEARS]>
    ensures { result ≡ input_years s.now }
{
    if s.len() < DAYS {
        return None;
    }
    let mut years = [Year::fresh(); Yearly::YEARS];
    let mut at = DAYS;
    for y in &mut years {
        let next = next_return(&s[at..])?;
        *y = next.year;
        at += next.bytes;
    }
    if at < s.len() || !one_period(years) {
        return None;
    }
    Some(years)
}
