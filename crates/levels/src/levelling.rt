// The cap and floor levels of a year.
ghost use Rattle.std.specs.Prelude.{◌≡◌, true, ◌≤◌, nat_abs};
ghost use Rattle.year.specs.Year.{good_year};
ghost use Rattle.levels.specs.Book.{good_book};
ghost use Rattle.levels.specs.Levels.{aif_of, cap_level, floor_level, level_of, LevelsGives};

use super::Book;
use super::measuring::{check_target, sum_of};
use money::{credit, debit, is_negative, magnitude, rounded, within};
use outage::Log;
use refusals::Refusal;
use year::{Year, check_year};

// What a product of three factors in ten-thousandths is divided by.
const OVER: u64 = 1_000_000_000_000;

// A year's cap and floor, in whole pounds.
#[derive(Clone, Copy, Debug, PartialEq, Eq)]
pub struct Levels {
    pub cap: i64,
    pub floor: i64,
}

impl Levels {
    // A factor of one, in ten-thousandths.
    pub const ONE: u16 = 10_000;

    // The most that a level has.
    pub const MOST: u64 = 1_000_000_000;
}

// A level: the sum times three factors, over 10^12 and rounded once, rule 6.2. The product does not fit 64 bits: what comes
// before the index is split into whole 10^12s and a rest, each is multiplied by the index, and both make the quotient.
fn level(partial: u16, sum: i64, incentive: u16, pppi: u32) -> i64
    requires { (partial ≤ 10000) × (nat_abs sum ≤ 1000000000) × (incentive ≤ 20000) × (pppi ≤ 50000) }
    ensures { result ≡ level_of partial sum incentive pppi }
{
    let before = magnitude(sum) * (partial as u64) * (incentive as u64);
    let index = pppi as u64;
    let low = (before % OVER) * index;
    let quotient = (before / OVER) * index + low / OVER;
    let pounds = rounded(quotient, low % OVER, OVER);
    if is_negative(sum) {
        debit(pounds)
    } else {
        credit(pounds)
    }
}

// The incentive at floor, AIF.
fn aif(met: bool, exceptional: bool, miss_factor: u16) -> u16
    ensures { result ≡ aif_of met exceptional miss_factor }
{
    if met || exceptional {
        Levels::ONE
    } else {
        miss_factor
    }
}

// The cap of a year that is in range, SC2 4(a).
fn cap_of(book: Book, y: &Year) -> i64
    requires { (good_book book ≡ true) × (good_year y.now ≡ true) }
    ensures { result ≡ cap_level book y.now }
{
    let sum = sum_of(book.pcl, book.pcac, book.orac);
    level(y.pyc, sum, y.aic, y.pppi)
}

// The floor of a year that is in range, SC2 4(b).
fn floor_of(book: Book, y: &Year, met: bool) -> i64
    requires { (good_book book ≡ true) × (good_year y.now ≡ true) }
    ensures { result ≡ floor_level book y.now (aif_of met y.now.exceptional book.miss_factor) }
{
    let sum = sum_of(book.pfl, book.pcaf, book.oraf);
    let incentive = aif(met, y.exceptional, book.miss_factor);
    level(y.pyf, sum, incentive, y.pppi)
}

// The cap and floor levels of a year, with the target tested on the running log.
pub fn levels_of(book: Book, y: Year, log: Log) -> Result<Levels, Refusal>
    ensures { LevelsGives book y log result }
{
    let met = check_target(book, log, y.number)?;
    check_year(y)?;
    let cap = cap_of(book, &y);
    let floor = floor_of(book, &y, met);
    if !within(cap, Levels::MOST) || !within(floor, Levels::MOST) {
        return Err(Refusal::TooLarge);
    }
    Ok(Levels { cap, floor })
}
