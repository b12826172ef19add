// The input of `workbook`: two days and the five returns of a period in, the amounts of its workbook out. Rules, section 20.
#![tactic(auto)]

mod amounts;
mod logging;
mod returns;

ghost use Rattle.workbook_input.specs.Calls.{ReadWorkbookGives};

use amounts::amounts_of;
use assessment::assess_period;
use codec::number;
use levels::Book;
use logging::running_log;
use refusals::Refusal;
use returns::read_years;

// The amounts of cells 0 to 24 in their order, and the two days as they were read.
#[derive(Clone, Copy, Debug, PartialEq, Eq)]
pub struct WorkbookInput {
    pub amounts: [i64; WorkbookInput::AMOUNTS],
    pub first: u32,
    pub last: u32,
}

impl WorkbookInput {
    pub const AMOUNTS: usize = 25;

    // No input that is accepted has more.
    pub const MOST_BYTES: usize = 40_978;
}

// The amounts of five returns of one period and the two days before them; or why there are none.
pub fn read_workbook(s: &[u8]) -> Result<WorkbookInput, Refusal>
    ensures { ReadWorkbookGives s.now result }
{
    let years = read_years(s).ok_or(Refusal::Malformed)?;
    let log = running_log(years)?;
    let book = Book::published();
    let figures = assess_period(book, years, log)?;
    let amounts = amounts_of(book, years, log, figures);
    let first = number(s, 0, 4) as u32;
    let last = number(s, 4, 4) as u32;
    Ok(WorkbookInput {
        amounts,
        first,
        last,
    })
}
