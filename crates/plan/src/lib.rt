// A plan of repeating maintenance windows: the outages that it means, and the list of them. Rules, section 18.
#![tactic(auto)]

mod listing;

ghost use Rattle.std.specs.Prelude.{◌≡◌, min};
ghost use Rattle.plan.specs.Plan.{good_plan, no_plan};
ghost use Rattle.plan.specs.Steps.{fitted_at, latest};

use calendar::MINUTES_A_DAY;
use entries::Entry;
pub use listing::{Listed, list_plan};

// The first start, how many minutes a window lasts, how many days lie from one start to the next, how many windows there are, and
// the MW lost in each and its cause.
#[derive(Clone, Copy, Debug, PartialEq, Eq)]
pub struct Plan {
    pub start: u32,
    pub length: u32,
    pub step: u16,
    pub count: u16,
    pub mw: u16,
    pub cause: u8,
}

// A minute, or the last that fits where it does not.
fn fitted(minute: u64) -> u32
    ensures { result ≡ min minute latest }
{
    u32::try_from(minute).unwrap_or(u32::MAX)
}

impl Plan {
    pub const MOST_OUTAGES: usize = 400;

    // What is read from bytes that are no plan.
    pub fn zero() -> Plan
        ensures { result ≡ no_plan }
    {
        Plan {
            start: 0,
            length: 0,
            step: 0,
            count: 0,
            mw: 0,
            cause: 0,
        }
    }

    // Whether count, step and window are in range.
    pub fn is_good(self) -> bool
        ensures { result ≡ good_plan self }
    {
        1 <= self.count
            && usize::from(self.count) <= Plan::MOST_OUTAGES
            && 1 <= self.step
            && self.length <= u32::from(self.step) * MINUTES_A_DAY
    }

    // The outage after so many steps. A minute that does not fit is the last that does, which is past every regime end.
    pub fn outage(self, steps: u16) -> Entry
        ensures { result ≡ fitted_at self steps }
    {
        let minutes = u64::from(steps) * u64::from(self.step) * u64::from(MINUTES_A_DAY);
        let start = u64::from(self.start) + minutes;
        Entry {
            start: fitted(start),
            end: fitted(start + u64::from(self.length)),
            mw: self.mw,
            cause: self.cause,
        }
    }
}
