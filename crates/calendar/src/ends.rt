// Year ends: rule 2.2.
ghost use Rattle.std.specs.Prelude.{◌≡◌};
ghost use Rattle.calendar.specs.Years.{is_year_end};

use super::{FIRST_YEAR, LAST_YEAR, next_start};

// Whether a minute is a year end: the start of a year from 2 to 25, or the regime end handed in.
pub fn is_year_end(minute: u32, regime_end: u32) -> bool
    ensures { result ≡ is_year_end regime_end minute }
{
    let mut start = 0;
    for passing in FIRST_YEAR..LAST_YEAR {
        start = next_start(start, passing);
        if minute == start {
            return true;
        }
    }
    minute == regime_end
}
