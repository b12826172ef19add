// The assessment: four balances, revenue held between floor and cap, and the adjustment.
ghost use Rattle.std.specs.Prelude.{◌≡◌, ◌&&◌, ◌≤◌, nat_abs};
ghost use Rattle.refusals.specs.Refusals.{answer_number, first_applicable, given_or};
ghost use Rattle.balances.specs.Balance.{good_amounts, good_count, good_index, good_yearly_amount, most_balance, period_years};
ghost use Rattle.balances.specs.Assessment.{figures_of, good_rows, assessable, held_between, no_figures, not_negative, AssessGives, YearsGives};
ghost use Rattle.balances.specs.Steps.{Bounded, found_figures, found_rows};

use super::carrying::balance_of;
use money::{below, is_negative, minus, within};
use refusals::Refusal;

// What the years of an assessment period bring: index, assessed revenue, cap and floor level, within-period adjustment. An
// assessment is over the first n of them.
#[derive(Clone, Copy, Debug, PartialEq, Eq)]
pub struct Yearly {
    pub index: [u32; Yearly::YEARS],
    pub revenue: [i64; Yearly::YEARS],
    pub cap: [i64; Yearly::YEARS],
    pub floor: [i64; Yearly::YEARS],
    pub wpa: [i64; Yearly::YEARS],
}

impl Yearly {
    // The years of a period.
    pub const YEARS: usize = 5;

    pub const LEAST_INDEX: u32 = 5_000;

    pub const MOST_INDEX: u32 = 50_000;

    // The most that a yearly amount has in magnitude.
    pub const MOST_AMOUNT: u64 = 1_000_000_000;
}

// The four balances, revenue held between floor and cap, and the adjustment paid to the licensee.
#[derive(Clone, Copy, Debug, PartialEq, Eq)]
pub struct Figures {
    pub revenue: i64,
    pub cap: i64,
    pub floor: i64,
    pub wpa: i64,
    pub held: i64,
    pub adjustment: i64,
}

fn good_index(i: u32) -> bool
    ensures { result ≡ good_index i }
{
    Yearly::LEAST_INDEX <= i && i <= Yearly::MOST_INDEX
}

fn good_year(i: u32, amount: i64) -> bool
    ensures { result ≡ (good_index i && good_yearly_amount amount) }
{
    good_index(i) && within(amount, Yearly::MOST_AMOUNT)
}

// The first n years' indices and amounts are in range.
fn good_amounts(index: [u32; Yearly::YEARS], amounts: [i64; Yearly::YEARS], n: usize) -> bool
    requires { n ≤ period_years }
    ensures { result ≡ good_amounts index amounts n }
{
    for k in 0..n {
        if !good_year(index[k], amounts[k]) {
            return false;
        }
    }
    true
}

// None of the first n amounts is negative.
fn not_negative(amounts: [i64; Yearly::YEARS], n: usize) -> bool
    requires { n ≤ period_years }
    ensures { result ≡ not_negative amounts n }
{
    for k in 0..n {
        if is_negative(amounts[k]) {
            return false;
        }
    }
    true
}

// One year to five.
fn good_count(n: usize) -> bool
    ensures { result ≡ good_count n }
{
    1 <= n && n <= Yearly::YEARS
}

// The first n years are in range.
fn good_rows(y: Yearly, n: usize) -> bool
    requires { n ≤ period_years }
    ensures { result ≡ good_rows y n }
{
    good_amounts(y.index, y.revenue, n)
        && good_amounts(y.index, y.cap, n)
        && not_negative(y.cap, n)
        && good_amounts(y.index, y.floor, n)
        && not_negative(y.floor, n)
        && good_amounts(y.index, y.wpa, n)
}

// And n is one to five.
fn can_be_assessed(y: Yearly, n: usize) -> bool
    ensures { result ≡ assessable y n }
{
    good_count(n) && good_rows(y, n)
}

// T: revenue held between floor and cap.
#[tactic(auto, unfolding(crate::specs::Assessment::held_between))]
fn held_between(revenue: i64, floor: i64, cap: i64) -> i64
    ensures { result ≡ held_between revenue floor cap }
{
    if below(revenue, floor) {
        return floor;
    }
    revenue.min(cap)
}

// The figures of four balances, each at most 10^10 in magnitude.
fn figures_of(revenue: i64, cap: i64, floor: i64, paid: i64) -> Figures
    requires { (nat_abs revenue ≤ most_balance)
        × (nat_abs cap ≤ most_balance)
        × (nat_abs floor ≤ most_balance)
        × (nat_abs paid ≤ most_balance) }
    ensures { result ≡ figures_of revenue cap floor paid }
{
    let held = held_between(revenue, floor, cap);
    Figures {
        revenue,
        cap,
        floor,
        wpa: paid,
        held,
        adjustment: minus(minus(held, revenue), paid),
    }
}

// What four balances give: 11 where there is none of one, then 10.
fn found(
    revenue: Option<i64>,
    cap: Option<i64>,
    floor: Option<i64>,
    paid: Option<i64>,
) -> Result<Figures, Refusal>
    requires { Bounded revenue × Bounded cap × Bounded floor × Bounded paid }
    ensures { (answer_number result ≡ first_applicable (found_rows revenue cap floor paid))
        × (given_or no_figures result ≡ found_figures revenue cap floor paid) }
{
    let revenue = revenue.ok_or(Refusal::TooLarge)?;
    let cap = cap.ok_or(Refusal::TooLarge)?;
    let floor = floor.ok_or(Refusal::TooLarge)?;
    let paid = paid.ok_or(Refusal::TooLarge)?;
    if below(cap, floor) {
        return Err(Refusal::FloorAboveCap);
    }
    Ok(figures_of(revenue, cap, floor, paid))
}

// The assessment of the first n years' amounts; 9 too where n is not one to five.
pub fn assess_years(y: Yearly, n: usize) -> Result<Figures, Refusal>
    ensures { YearsGives y n result }
{
    if !can_be_assessed(y, n) {
        return Err(Refusal::BadYear);
    }
    found(
        balance_of(y.index, y.revenue, n),
        balance_of(y.index, y.cap, n),
        balance_of(y.index, y.floor, n),
        balance_of(y.index, y.wpa, n),
    )
}

// The assessment of a whole period's amounts.
pub fn assess(y: Yearly) -> Result<Figures, Refusal>
    ensures { AssessGives y result }
{
    assess_years(y, Yearly::YEARS)
}
