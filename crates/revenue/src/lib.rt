// Assessed revenue of a year: rules 7.4 to 7.6 (SC5, SC7).
#![tactic(auto)]

ghost use Rattle.std.specs.Prelude.{◌≡◌, true, ◌≤◌, length, nat_abs};
ghost use Rattle.lists.specs.Lists.{all};
ghost use Rattle.year.specs.Year.{good_line, good_rate, line_slots};
ghost use Rattle.revenue.specs.Revenue.{NAR, counted_by, pounds_of, RevenueGives};

use money::{plus, scaled, within};
use refusals::Refusal;
use year::{Line, Year, check_year};

// The most that assessed revenue has in magnitude.
pub const MOST_REVENUE: u64 = 1_000_000_000;

// A line in pounds: a euro line is converted, and rounded by itself.
#[tactic(auto, unfolding(crate::specs::Revenue::pounds_of))]
fn pounds(l: Line, rate: u32) -> i64
    requires { (nat_abs l.amount ≤ 1000000000) × (rate ≤ 200000) }
    ensures { (result ≡ pounds_of rate l) × (nat_abs result ≤ 2000000000) }
{
    if l.currency == Line::POUND {
        return l.amount;
    }
    scaled(l.amount, rate, 100_000)
}

// What the pounds of a line count that is no capacity market revenue: kinds 7, 8, 9 and 11 are subtracted.
fn counted(kind: u8, amount: i64) -> i64
    requires { nat_abs amount ≤ 2000000000 }
    ensures { (result ≡ counted_by kind amount) × (nat_abs result ≤ 2000000000) }
{
    if kind < 7 || kind == 10 {
        amount
    } else {
        -amount
    }
}

// The total of the lines, in one pass: capacity market revenue is lifted to zero as a sum.
fn total(lines: &[Line], rate: u32) -> i64
    requires { (all good_line lines.now ≡ true) × (length lines.now ≤ line_slots) × (good_rate rate ≡ true) }
    ensures { result ≡ NAR rate lines.now }
{
    let mut others: i64 = 0;
    let mut cmr: i64 = 0;
    for l in lines {
        let amount = pounds(*l, rate);
        if l.kind == Line::CMR {
            cmr = plus(cmr, amount);
        } else {
            others = plus(others, counted(l.kind, amount));
        }
    }
    plus(others, cmr.max(0))
}

// Assessed revenue of a year: euro lines converted one by one, and capacity market revenue lifted to zero as
// a sum.
pub fn revenue_of(y: Year) -> Result<i64, Refusal>
    ensures { RevenueGives y result }
{
    check_year(y)?;
    let sum = total(&y.lines[..y.line_count], y.rate);
    if !within(sum, MOST_REVENUE) {
        return Err(Refusal::TooLarge);
    }
    Ok(sum)
}
