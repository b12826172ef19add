// Availability of a year, and whether its target is met.
ghost use Rattle.std.specs.Prelude.{◌≡◌, ◌&&◌, ◌≤◌, nat_abs, ◌+ℤ◌};
ghost use Rattle.std.specs.Int.Signed.{non_neg};
ghost use Rattle.levels.specs.Book.{book_holds, good_book, good_book_amount, good_numbers, good_sum, target_of};
ghost use Rattle.levels.specs.Availability.{AvailabilityGives, TargetGives};

use super::Book;
use calendar::{YearMinutes, year_minutes};
use money::{is_negative, plus, within};
use outage::{Log, lost_energy};
use refusals::Refusal;
use year::Year;

// A preliminary level with its two adjustments.
pub(crate) fn sum_of(preliminary: i64, construction: i64, opex: i64) -> i64
    requires { (nat_abs preliminary ≤ 1000000000) × (nat_abs construction ≤ 1000000000) × (nat_abs opex ≤ 1000000000) }
    ensures { result ≡ preliminary +ℤ construction +ℤ opex }
{
    plus(plus(preliminary, construction), opex)
}

// 0 to 10^9.
fn good_level(z: i64) -> bool
    ensures { result ≡ (non_neg z && good_book_amount z) }
{
    !is_negative(z) && within(z, Book::MOST_AMOUNT)
}

// A preliminary level and its two adjustments are in range, and so is their sum.
fn good_sum(preliminary: i64, construction: i64, opex: i64) -> bool
    ensures { result ≡ good_sum preliminary construction opex }
{
    good_level(preliminary)
        && within(construction, Book::MOST_AMOUNT)
        && within(opex, Book::MOST_AMOUNT)
        && good_level(sum_of(preliminary, construction, opex))
}

// The regime end, the targets and the floor factor of the book are in range.
fn good_numbers(b: Book) -> bool
    ensures { result ≡ good_numbers b }
{
    Log::FIRST_REGIME_END <= b.regime_end
        && b.regime_end <= Log::LAST_REGIME_END
        && b.first_target <= Book::MOST_TARGET
        && b.last_target <= Book::MOST_TARGET
        && b.miss_factor <= Book::MOST_FACTOR
}

// Every entry of the book is in range.
#[tactic(auto, unfolding(crate::specs::Book::good_book))]
fn good_book(b: Book) -> bool
    ensures { result ≡ good_book b }
{
    good_numbers(b) && good_sum(b.pcl, b.pcac, b.orac) && good_sum(b.pfl, b.pcaf, b.oraf)
}

// The book is in range, and its regime end that of the log.
fn book_holds(b: Book, regime_end: u32) -> bool
    ensures { result ≡ book_holds b regime_end }
{
    good_book(b) && b.regime_end == regime_end
}

// Availability of a year: what the cable could carry in its minutes, less what it lost in them.
pub fn availability_of(book: Book, log: Log, number: u8) -> Result<u64, Refusal>
    ensures { AvailabilityGives book log number result }
{
    if !book_holds(book, log.regime_end) {
        return Err(Refusal::BadBook);
    }
    let minutes = year_minutes(number, log.regime_end);
    let span = minutes.unwrap_or(YearMinutes { first: 0, end: 0 });
    let lost = lost_energy(log, span.first, span.end)?;
    minutes?;
    let figure = 1_000 * u64::from(span.end - span.first) - lost;
    Ok(figure)
}

// The target of a year, in MWh.
fn target_of(b: Book, number: u8) -> u32
    ensures { result ≡ target_of b number }
{
    match number {
        Year::FIRST => b.first_target,
        Year::LAST => b.last_target,
        _ => Book::TARGET,
    }
}

// Whether the availability of a year meets its target; equality does.
pub fn check_target(book: Book, log: Log, number: u8) -> Result<bool, Refusal>
    ensures { TargetGives book log number result }
{
    let available = availability_of(book, log, number)?;
    Ok(60 * u64::from(target_of(book, number)) <= available)
}
