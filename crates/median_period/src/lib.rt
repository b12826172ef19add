// A period as the regulator's workbook keeps it: first day, last day and median, three floats together. Rules 19.2 and 19.3.
#![tactic(auto)]

ghost use Rattle.std.specs.Prelude.{◌≡◌};
ghost use Rattle.floats.specs.Floats.{whole_day};
ghost use Rattle.median_period.specs.Medians.{days_of, good_medians, no_medians};
ghost use Rattle.median_period.specs.Calls.{MakeGives, MediansGapGives};

use floats::whole_of;
use refusals::Refusal;
use settlement::{Period, gap_between};

// A measurement, settlement or reconciliation period, in spreadsheet day numbers. The median may end in a half.
#[derive(Clone, Copy, Debug, PartialEq)]
pub struct MedianPeriod {
    pub first: f64,
    pub last: f64,
    pub median: f64,
}

// The whole day that a float is.
fn day_of(x: f64) -> Option<u32>
    ensures { result ≡ whole_day x }
{
    let day = u32::try_from(whole_of(x)?).ok()?;
    (Period::FIRST_DAY <= day && day <= Period::LAST_DAY).then_some(day)
}

impl MedianPeriod {
    // What stands beside a refusal.
    pub fn zero() -> MedianPeriod
        ensures { result ≡ no_medians }
    {
        MedianPeriod {
            first: 0.0,
            last: 0.0,
            median: 0.0,
        }
    }

    // Its first and last day as whole numbers, 0 for one that is no day.
    pub fn days(self) -> Period
        ensures { result ≡ days_of self }
    {
        let first = day_of(self.first).unwrap_or(0);
        let last = day_of(self.last).unwrap_or(0);
        Period { first, last }
    }

    // Whether its days are whole and a period, and the median is exactly half of their sum.
    #[tactic(auto, using(crate::proofs::Laws::median_test))]
    pub fn is_good(self) -> bool
        ensures { result ≡ good_medians self }
    {
        let (Some(first), Some(last)) = (day_of(self.first), day_of(self.last)) else {
            return false;
        };
        first <= last && (self.first + self.last) * 0.5 == self.median
    }
}

// The period of two whole days, with the median that is theirs; 12 where they are out of range or reversed.
#[tactic(auto, using(crate::proofs::Laws::half_of_sum))]
pub fn make_period(first: u32, last: u32) -> Result<MedianPeriod, Refusal>
    ensures { MakeGives first last result }
{
    if first < Period::FIRST_DAY || last < first || Period::LAST_DAY < last {
        return Err(Refusal::BadPeriod);
    }
    let a = f64::from(first);
    let b = f64::from(last);
    Ok(MedianPeriod {
        first: a,
        last: b,
        median: (a + b) * 0.5,
    })
}

// The years from the median of one period to that of a later one, in hundredths, from their days; 12 also for a period that
// is not as a workbook keeps one.
pub fn gap_of_medians(earlier: MedianPeriod, later: MedianPeriod) -> Result<u32, Refusal>
    ensures { MediansGapGives earlier later result }
{
    if !earlier.is_good() || !later.is_good() {
        return Err(Refusal::BadPeriod);
    }
    gap_between(earlier.days(), later.days())
}
