// Whether a year is in range: all of it but its log.
ghost use Rattle.std.specs.Prelude.{◌≡◌};
ghost use Rattle.std.specs.List.{list_all};
ghost use Rattle.year.specs.Year.{good_factors, good_line, good_lines, is_zero_line, CheckYearGives};

use super::{Line, Year};
use money::within;
use refusals::Refusal;

// A line's kind, currency and amount are in range.
pub fn good_line(l: Line) -> bool
    ensures { result ≡ good_line l }
{
    let signed = l.kind == Line::CMR || Line::FIRST_SIGNED <= l.kind;
    Line::FIRST_KIND <= l.kind
        && l.kind <= Line::LAST_KIND
        && l.currency <= Line::EURO
        && within(l.amount, Line::MOST_AMOUNT)
        && (signed || 0 <= l.amount)
}

fn is_zero_line(l: Line) -> bool
    ensures { result ≡ is_zero_line l }
{
    l == Line::zero()
}

fn all_good(lines: &[Line]) -> bool
    ensures { result ≡ list_all good_line lines.now }
{
    lines.iter().all(|l| good_line(*l))
}

fn all_zero(lines: &[Line]) -> bool
    ensures { result ≡ list_all is_zero_line lines.now }
{
    lines.iter().all(|l| is_zero_line(*l))
}

// The lines below the count are in range, the slots past it zero.
#[tactic(auto, using(crate::proofs::Listed::listed))]
fn good_lines(lines: [Line; Year::LINES], count: usize) -> bool
    ensures { result ≡ good_lines lines count }
{
    count <= Year::LINES && all_good(&lines[..count]) && all_zero(&lines[count..])
}

// The year number, the index, the rate and the factors are in range.
fn good_factors(y: &Year) -> bool
    ensures { result ≡ good_factors y.now.number y.now.pppi y.now.rate y.now.aic y.now.pyc y.now.pyf }
{
    Year::FIRST <= y.number
        && y.number <= Year::LAST
        && Year::LEAST_PPPI <= y.pppi
        && y.pppi <= Year::MOST_PPPI
        && Year::LEAST_RATE <= y.rate
        && y.rate <= Year::MOST_RATE
        && y.aic <= Year::MOST_AIC
        && y.pyc <= Year::MOST_PARTIAL
        && y.pyf <= Year::MOST_PARTIAL
}

// Whether the year is in range. Its log is neither used nor checked.
pub fn check_year(y: Year) -> Result<(), Refusal>
    ensures { CheckYearGives y result }
{
    let good = good_factors(&y)
        && within(y.wpa, Year::MOST_WPA)
        && good_lines(y.lines, y.line_count);
    if !good {
        return Err(Refusal::BadYear);
    }
    Ok(())
}
