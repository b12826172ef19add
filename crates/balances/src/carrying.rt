// A balance carried over the years, the same for revenue, cap, floor and within-period adjustments.
ghost use Rattle.std.specs.Prelude.{◌≡◌, true, ◌+◌, ◌≤◌, ◌<◌, nat_abs};
ghost use Rattle.balances.specs.Balance.{balance_after, carry_of, good_amounts, most_balance, period_years};
ghost use Rattle.balances.specs.Steps.{balance_of, carried_of};

use super::assessing::Yearly;
use money::{plus, scaled, within};

// The most that a balance has in magnitude.
const MOST_BALANCE: u64 = 10_000_000_000;

// A balance carried from one year's index to the next one's.
fn carry(balance: i64, before: u32, now: u32) -> i64
    requires { (nat_abs balance ≤ most_balance) × (5000 ≤ before) × (before ≤ 50000) × (now ≤ 50000) }
    ensures { (result ≡ carry_of balance before now) × (nat_abs result ≤ 103880000000) }
{
    scaled(balance, 10_388 * now, 10_000 * before)
}

// The balance after the year past `at`, from that after the year `at`.
fn next_balance(
    index: [u32; Yearly::YEARS],
    amounts: [i64; Yearly::YEARS],
    at: usize,
    balance: i64,
) -> i64
    requires { (at + 1 < period_years)
        × (good_amounts index amounts (at + 2) ≡ true)
        × (nat_abs balance ≤ most_balance)
        × (balance ≡ balance_after index amounts at) }
    ensures { result ≡ balance_after index amounts (at + 1) }
{
    plus(carry(balance, index[at], index[at + 1]), amounts[at + 1])
}

// The balance after the years left, from that after the year `at`; none where one of them is above the limit.
fn carried(
    index: [u32; Yearly::YEARS],
    amounts: [i64; Yearly::YEARS],
    at: usize,
    balance: i64,
    left: usize,
) -> Option<i64>
    requires { (at + left < period_years)
        × (good_amounts index amounts (at + left + 1) ≡ true)
        × (nat_abs balance ≤ most_balance)
        × (balance ≡ balance_after index amounts at) }
    ensures { result ≡ carried_of index amounts at left }
{
    if left == 0 {
        return Some(balance);
    }
    let next = next_balance(index, amounts, at, balance);
    if !within(next, MOST_BALANCE) {
        return None;
    }
    carried(index, amounts, at + 1, next, left - 1)
}

// The balance of the first n years.
pub(crate) fn balance_of(
    index: [u32; Yearly::YEARS],
    amounts: [i64; Yearly::YEARS],
    n: usize,
) -> Option<i64>
    requires { (1 ≤ n) × (n ≤ period_years) × (good_amounts index amounts n ≡ true) }
    ensures { result ≡ balance_of index amounts n }
{
    carried(index, amounts, 0, amounts[0], n - 1)
}
