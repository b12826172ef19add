// A Relevant Year as it is entered: index, rate, factors, revenue lines, mark, within-period adjustment and log.
// Rules, section 7.
#![tactic(auto)]

mod checking;

ghost use Rattle.std.specs.Prelude.{◌≡◌};
ghost use Rattle.year.specs.Year.{fresh_year, zero_line};

pub use checking::{check_year, good_line};
use outage::{Entry, Log};

// A revenue line: its kind, its currency (0 pound, 1 euro) and an amount in that currency.
#[derive(Clone, Copy, Debug, PartialEq, Eq)]
pub struct Line {
    pub kind: u8,
    pub currency: u8,
    pub amount: i64,
}

impl Line {
    pub const FIRST_KIND: u8 = 1;

    pub const LAST_KIND: u8 = 11;

    // The kind of capacity market revenue, CMR.
    pub const CMR: u8 = 2;

    // Kinds from here on, and CMR, may be negative.
    pub const FIRST_SIGNED: u8 = 7;

    pub const POUND: u8 = 0;

    pub const EURO: u8 = 1;

    // The most that an amount has in magnitude.
    pub const MOST_AMOUNT: u64 = 1_000_000_000;

    // What a free line slot holds.
    pub fn zero() -> Line
        ensures { result ≡ zero_line }
    {
        Line {
            kind: 0,
            currency: 0,
            amount: 0,
        }
    }
}

// Factors and the index are in ten-thousandths, the rate is pounds per euro in hundred-thousandths.
#[derive(Clone, Copy, Debug, PartialEq, Eq)]
pub struct Year {
    pub number: u8,
    pub pppi: u32,
    pub rate: u32,
    pub aic: u16,
    pub pyc: u16,
    pub pyf: u16,
    pub lines: [Line; Year::LINES],
    pub line_count: usize,
    // an Exceptional Event is marked
    pub exceptional: bool,
    // the within-period adjustment, W
    pub wpa: i64,
    pub log: Log,
}

impl Year {
    // The numbers of the first and the last Relevant Year.
    pub const FIRST: u8 = calendar::FIRST_YEAR;

    pub const LAST: u8 = calendar::LAST_YEAR;

    pub const LINES: usize = 64;

    pub const LEAST_PPPI: u32 = 5_000;

    pub const MOST_PPPI: u32 = 50_000;

    pub const LEAST_RATE: u32 = 1;

    pub const MOST_RATE: u32 = 200_000;

    pub const MOST_AIC: u16 = 20_000;

    pub const MOST_PARTIAL: u16 = 10_000;

    // The most that the within-period adjustment has in magnitude.
    pub const MOST_WPA: u64 = 1_000_000_000;

    // The fresh year: year 1, index and factors 1, rate 1, no line, no mark, no adjustment, an empty log.
    pub fn fresh() -> Year
        ensures { result ≡ fresh_year }
    {
        Year {
            number: 1,
            pppi: 10_000,
            rate: 100_000,
            aic: 10_000,
            pyc: 10_000,
            pyf: 10_000,
            lines: [Line::zero(); Year::LINES],
            line_count: 0,
            exceptional: false,
            wpa: 0,
            log: Log::made([Entry::zero(); Log::SLOTS], 0, Log::LAST_REGIME_END),
        }
    }
}
