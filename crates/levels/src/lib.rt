// The licence book, availability and its target, and the cap and floor levels of a year:
// rules, sections 3, 5 and 6 (SC2, SC4).
#![tactic(auto)]

mod levelling;
mod measuring;

ghost use Rattle.std.specs.Prelude.{◌≡◌};
ghost use Rattle.levels.specs.Book.{published_book};

pub use levelling::{Levels, levels_of};
pub use measuring::{availability_of, check_target};
use outage::Log;

// What the licence and the regulator set: amounts in whole pounds, targets in MWh, the factor in ten-thousandths.
#[derive(Clone, Copy, Debug, PartialEq, Eq)]
pub struct Book {
    pub regime_end: u32,
    // the targets of years 1 and 25
    pub first_target: u32,
    pub last_target: u32,
    // the preliminary cap and floor, PCL and PFL
    pub pcl: i64,
    pub pfl: i64,
    // post construction adjustments
    pub pcac: i64,
    pub pcaf: i64,
    // opex reassessment adjustments
    pub orac: i64,
    pub oraf: i64,
    // the floor factor on a miss
    pub miss_factor: u16,
}

impl Book {
    pub const MOST_TARGET: u32 = 20_000_000;

    // The most of a preliminary level, of an adjustment in magnitude, and of their sum.
    pub const MOST_AMOUNT: u64 = 1_000_000_000;

    pub const MOST_FACTOR: u16 = 10_000;

    // The Minimum Availability Target of years 2 to 24, in MWh.
    pub const TARGET: u32 = 7_012_800;

    // The levels as published, the last regime end, and nothing else: rule 3.2.
    pub fn published() -> Book
        ensures { result ≡ published_book }
    {
        Book {
            regime_end: Log::LAST_REGIME_END,
            first_target: 0,
            last_target: 0,
            pcl: 83_806_402,
            pfl: 48_807_317,
            pcac: 0,
            pcaf: 0,
            orac: 0,
            oraf: 0,
            miss_factor: 0,
        }
    }
}
