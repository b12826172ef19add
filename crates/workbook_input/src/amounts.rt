// The amounts of a period's workbook, in the order of its cells: rules 19.4 and 20.2.
ghost use Rattle.std.specs.Prelude.{◌≡◌, ◌++◌};
ghost use Rattle.refusals.specs.Refusals.{first_applicable};
ghost use Rattle.levels.specs.Book.{published_book};
ghost use Rattle.assessment.specs.Period.{period_rows};
ghost use Rattle.workbook_input.specs.Calls.{period_amounts, yearly_amounts};

use super::WorkbookInput;
use balances::{Figures, Yearly};
use levels::{Book, levels_of};
use outage::Log;
use revenue::revenue_of;
use year::Year;

// How many amounts a year has.
const A_YEAR: usize = 4;

// The amounts of a period that the assessment accepts, with these figures.
pub(crate) fn amounts_of(
    book: Book,
    years: [Year; Yearly::YEARS],
    log: Log,
    figures: Figures,
) -> [i64; WorkbookInput::AMOUNTS]
    requires { (book ≡ published_book) × (first_applicable (period_rows book years log) ≡ 0) }
    ensures { result ≡ yearly_amounts log years ++ period_amounts figures }
{
    let mut amounts = [0; WorkbookInput::AMOUNTS];
    for (k, y) in years.iter().enumerate() {
        let revenue = revenue_of(*y).unwrap();
        let levels = levels_of(book, *y, log).unwrap();
        let own = [revenue, levels.cap, levels.floor, y.wpa];
        amounts[k * A_YEAR..(k + 1) * A_YEAR].copy_from_slice(&own);
    }
    let whole = [
        figures.revenue,
        figures.cap,
        figures.floor,
        figures.wpa,
        figures.adjustment,
    ];
    amounts[Yearly::YEARS * A_YEAR..].copy_from_slice(&whole);
    amounts
}
