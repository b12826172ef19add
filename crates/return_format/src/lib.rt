// The yearly return: its limits and tags, the refusal of one, and the factors that one leaves out. Rules, section 10.
#![tactic(auto)]

ghost use Rattle.std.specs.Prelude.{◌≡◌};
ghost use Rattle.return_format.specs.Return.{factors_as, is_left_out, left_out, refused_at};

use refusals::{Refusal, RefusedAt};
use year::Year;

// The yearly return.
#[derive(Clone, Copy, Debug, PartialEq, Eq)]
pub struct Return;

// The partial-year factors for cap and floor, PYC and PYF.
#[derive(Clone, Copy, Debug, PartialEq, Eq)]
pub struct Factors {
    pub pyc: u16,
    pub pyf: u16,
}

impl Return {
    pub const MOST_BYTES: usize = 8_192;

    pub const YEAR: u8 = 1;

    pub const PPPI: u8 = 2;

    pub const RATE: u8 = 3;

    pub const AIC: u8 = 4;

    pub const FACTORS: u8 = 5;

    pub const LINE: u8 = 6;

    pub const OUTAGE: u8 = 7;

    pub const EXCEPTIONAL: u8 = 8;

    pub const WPA: u8 = 9;

    // A refused reading: 13, and the place.
    pub fn refused(place: usize) -> RefusedAt
        ensures { result ≡ refused_at place }
    {
        RefusedAt {
            why: Refusal::Malformed,
            at: place,
        }
    }
}

impl Factors {
    // Those of the first year, 335 days of 365.
    pub const FIRST_YEAR: u16 = 9_178;

    pub const WHOLE_YEAR: u16 = Year::MOST_PARTIAL;

    // The factors that a return of this year leaves out, if any: rule 10.2.
    pub fn left_out(number: u8) -> Option<Factors>
        ensures { result ≡ factors_as (left_out number) }
    {
        match number {
            Year::FIRST => Some(Factors {
                pyc: Factors::FIRST_YEAR,
                pyf: Factors::FIRST_YEAR,
            }),
            Year::LAST => None,
            _ => Some(Factors {
                pyc: Factors::WHOLE_YEAR,
                pyf: Factors::WHOLE_YEAR,
            }),
        }
    }

    // Whether these are the factors that a return of this year leaves out.
    pub fn are_left_out(self, number: u8) -> bool
        ensures { result ≡ is_left_out number (self.pyc, self.pyf) }
    {
        Factors::left_out(number) == Some(self)
    }
}
