// Payments: an amount, grown over a gap.
ghost use Rattle.std.specs.Prelude.{◌≡◌, ◌<◌, ◌≤◌, nat_abs};
ghost use Rattle.settlement.specs.Growth.{growth_entries, paid_of};
ghost use Rattle.settlement.specs.Calls.{PayGives, SettleGives, ReconcileGives};

use super::medians::{Period, gap_between};
use super::table::{MOST_HUNDREDTHS, entry};
use money::{credit, debit, minus, within};
use refusals::Refusal;

// The most that is settled or reconciled, in magnitude.
pub const MOST_AMOUNT: u64 = 10_000_000_000;

// The amount grown over n hundredths of a year, rounded toward zero.
fn grown(amount: i64, n: u32) -> i64
    requires { (nat_abs amount ≤ 10000000000) × (n < growth_entries) }
    ensures { result ≡ paid_of amount n }
{
    let m = amount.unsigned_abs() * entry(n) / 1_000_000_000;
    if amount < 0 { debit(m) } else { credit(m) }
}

// The payment of an amount over n hundredths of a year.
pub fn pay(amount: i64, n: u32) -> Result<i64, Refusal>
    ensures { PayGives amount n result }
{
    if MOST_HUNDREDTHS < n {
        return Err(Refusal::BadPeriod);
    }
    if !within(amount, MOST_AMOUNT) {
        return Err(Refusal::TooLarge);
    }
    Ok(grown(amount, n))
}

// Equation 1: an adjustment measured over one period, paid in a later one.
pub fn settle(adjustment: i64, measured: Period, settled: Period) -> Result<i64, Refusal>
    ensures { SettleGives adjustment measured settled result }
{
    let n = gap_between(measured, settled)?;
    pay(adjustment, n)
}

// Equation 2: the final payment less the provisional one, settled in a period after the settlement period.
pub fn reconcile(
    last: i64,
    provisional: i64,
    settled: Period,
    reconciled: Period,
) -> Result<i64, Refusal>
    ensures { ReconcileGives last provisional settled reconciled result }
{
    settle(minus(last, provisional), settled, reconciled)
}
