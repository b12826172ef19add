// The assessment of a period, from the book, its years and the running log: rule 8.5 (SC3).
// What is inside is over any years of one to five.
#![tactic(auto)]

ghost use Rattle.std.specs.Prelude.{◌≡◌, cond, true, ◌<◌, ◌≤◌, length, Ok, Err};
ghost use Rattle.lists.specs.Lists.{all};
ghost use Rattle.levels.specs.Book.{book_holds};
ghost use Rattle.outage.specs.Log.{valid_log};
ghost use Rattle.refusals.specs.declared.Refusal.TheVariants.{TooLarge};
ghost use Rattle.year.specs.Year.{good_year};
ghost use Rattle.balances.specs.Balance.{good_count, period_years};
ghost use Rattle.assessment.specs.Period.{year_fits, yearly_of, good_period_years, PeriodGives};
ghost use Rattle.assessment.specs.Steps.{good_from, no_amounts, row_of, with_row, FirstGives};

use balances::{Figures, Yearly, assess_years};
use levels::{Book, availability_of, levels_of};
use outage::Log;
use refusals::Refusal;
use revenue::revenue_of;
use year::{Year, check_year};

// What one year brings.
#[derive(Clone, Copy, Debug, PartialEq, Eq)]
struct Row {
    index: u32,
    revenue: i64,
    cap: i64,
    floor: i64,
    wpa: i64,
}

// The years are in range and their numbers follow one another from `number` on.
fn good_from(years: &[Year], number: u8) -> bool
    requires { length years.now ≤ period_years }
    ensures { result ≡ good_from number years.now }
{
    for (k, y) in years.iter().enumerate() {
        if check_year(*y).is_err() || usize::from(y.number) != usize::from(number) + k {
            return false;
        }
    }
    true
}

// The years are in range, and those of one assessment period, in order.
#[tactic(auto, using(crate::proofs::Years::period_other, crate::proofs::Years::period_start))]
fn good_period_years(years: &[Year]) -> bool
    requires { (1 ≤ length years.now) × (length years.now ≤ period_years) }
    ensures { result ≡ good_period_years years.now (length years.now) }
{
    let number = years[0].number;
    number % (Yearly::YEARS as u8) == 1 && good_from(years, number)
}

// One year's amounts, from its levels and its assessed revenue; 11 where one of them does not fit.
fn row_of(book: Book, y: Year, log: Log) -> Result<Row, Refusal>
    requires { (book_holds book log.regime_end ≡ true) × (valid_log log ≡ true) × (good_year y ≡ true) }
    ensures { result ≡ row_of book y log }
{
    let levels = levels_of(book, y, log)?;
    let revenue = revenue_of(y)?;
    Ok(Row {
        index: y.pppi,
        revenue,
        cap: levels.cap,
        floor: levels.floor,
        wpa: y.wpa,
    })
}

// The amounts with one year's put in at its place.
fn with_row(mut yearly: Yearly, k: usize, row: Row) -> Yearly
    requires { k < period_years }
    ensures { result ≡ with_row yearly k row }
{
    yearly.index[k] = row.index;
    yearly.revenue[k] = row.revenue;
    yearly.cap[k] = row.cap;
    yearly.floor[k] = row.floor;
    yearly.wpa[k] = row.wpa;
    yearly
}

fn no_amounts() -> Yearly
    ensures { result ≡ no_amounts }
{
    Yearly {
        index: [0; Yearly::YEARS],
        revenue: [0; Yearly::YEARS],
        cap: [0; Yearly::YEARS],
        floor: [0; Yearly::YEARS],
        wpa: [0; Yearly::YEARS],
    }
}

// The years' amounts, where book, log and years are in range; 11 where one of them does not fit.
fn amounts_of(book: Book, years: &[Year], log: Log) -> Result<Yearly, Refusal>
    requires { (length years.now ≤ period_years)
        × (book_holds book log.regime_end ≡ true)
        × (valid_log log ≡ true)
        × (all good_year years.now ≡ true) }
    ensures { result ≡ cond (all (year_fits book log) years.now) (Ok (yearly_of book years.now log (length years.now))) (Err TooLarge) }
{
    let mut yearly = no_amounts();
    for (k, y) in years.iter().enumerate() {
        yearly = with_row(yearly, k, row_of(book, *y, log)?);
    }
    Ok(yearly)
}

// The assessment of the first years of a period.
fn assess_first(book: Book, years: &[Year], log: Log) -> Result<Figures, Refusal>
    requires { good_count (length years.now) ≡ true }
    ensures { FirstGives book years.now log (length years.now) result }
{
    availability_of(book, log, 1)?;
    if !good_period_years(years) {
        return Err(Refusal::BadYear);
    }
    let yearly = amounts_of(book, years, log)?;
    assess_years(yearly, years.len())
}

// The assessment of a period, over all of its years.
pub fn assess_period(book: Book, years: [Year; Yearly::YEARS], log: Log) -> Result<Figures, Refusal>
    ensures { PeriodGives book years log result }
{
    assess_first(book, &years, log)
}
