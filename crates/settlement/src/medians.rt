// The gap between the medians of two periods, in hundredths of a year.
ghost use Rattle.std.specs.Prelude.{◌≡◌, not, [], ◌∷◌, ◌≤◌};
ghost use Rattle.refusals.specs.Refusals.{answer_number, first_applicable, given_or};
ghost use Rattle.refusals.specs.declared.Refusal.TheVariants.{BadPeriod};
ghost use Rattle.settlement.specs.Gap.{good_hundredths, good_period, hundredths};
ghost use Rattle.settlement.specs.Calls.{sums_figure, GapGives};

use super::table::MOST_HUNDREDTHS;
use refusals::Refusal;

// A measurement, settlement or reconciliation period: its first and last day, as spreadsheet day numbers.
#[derive(Clone, Copy, Debug, PartialEq, Eq)]
pub struct Period {
    pub first: u32,
    pub last: u32,
}

impl Period {
    // 1 March 1900
    pub const FIRST_DAY: u32 = 61;

    // 31 December 2099
    pub const LAST_DAY: u32 = 73_050;
}

fn good_period(p: Period) -> bool
    ensures { result ≡ good_period p }
{
    Period::FIRST_DAY <= p.first && (p.first <= p.last && p.last <= Period::LAST_DAY)
}

// The gap of two medians, from the sums of each period's first and last day.
fn gap_of_sums(earlier: u32, later: u32) -> Result<u32, Refusal>
    requires { (earlier ≤ 146100) × (later ≤ 146100) }
    ensures { (answer_number result ≡ first_applicable ((BadPeriod, not (good_hundredths (hundredths earlier later))) ∷ []))
        × (given_or 0 result ≡ sums_figure earlier later) }
{
    let end = 400 * later + 1461;
    let start = 400 * earlier;
    if end < start {
        return Err(Refusal::BadPeriod);
    }
    let n = (end - start) / 2922;
    if MOST_HUNDREDTHS < n {
        return Err(Refusal::BadPeriod);
    }
    Ok(n)
}

// The years from the median of one period to that of a later one, to two decimals, in hundredths.
pub fn gap_between(earlier: Period, later: Period) -> Result<u32, Refusal>
    ensures { GapGives earlier later result }
{
    if !good_period(earlier) || !good_period(later) {
        return Err(Refusal::BadPeriod);
    }
    gap_of_sums(earlier.first + earlier.last, later.first + later.last)
}
