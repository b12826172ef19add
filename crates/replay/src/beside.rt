// What an answer gives, and what stands in its place beside a refusal: rules 12.3 and 12.4.
ghost use Rattle.std.specs.Prelude.{◌≡◌, [], replicate};
ghost use Rattle.refusals.specs.Refusals.{given_or, why_alone};
ghost use Rattle.calendar.specs.Years.{no_minutes};
ghost use Rattle.outage.specs.Log.{last_regime_end, log_holding};
ghost use Rattle.outage.specs.Calls.{empty_log};
ghost use Rattle.year.specs.Year.{fresh_year};
ghost use Rattle.plan.specs.Plan.{no_plan};
ghost use Rattle.plan.specs.Calls.{list_of};
ghost use Rattle.median_period.specs.Medians.{no_medians};
ghost use Rattle.cells.specs.Cells.{empty_slot};
ghost use Rattle.workbook_cells.specs.Calls.{no_cells};
ghost use Rattle.text.specs.Text.{text_of};

use calendar::YearMinutes;
use cells::{Cell, Slot};
use median_period::MedianPeriod;
use outage::{Entry, Log};
use plan::{Listed, Plan};
use refusals::{Refusal, RefusedAt};
use text::Text;
use workbook_cells::CellsRead;
use year::Year;

// The empty log that was asked for, or the one to the last regime end.
pub(crate) fn log_or_last(made: Result<Log, Refusal>) -> Log
    ensures { result ≡ given_or (log_holding last_regime_end []) made }
{
    match made {
        Ok(log) => log,
        Err(_) => Log::empty_or_last(Log::LAST_REGIME_END),
    }
}

// A sheet's log, or the empty one for the regime end handed in, to the last where that is refused.
pub(crate) fn log_or_empty(read: Result<Log, RefusedAt>, regime_end: u32) -> Log
    ensures { result ≡ given_or (empty_log regime_end) (why_alone read) }
{
    match read {
        Ok(log) => log,
        Err(_) => Log::empty_or_last(regime_end),
    }
}

// A return's year, or the fresh one.
pub(crate) fn year_or_fresh(read: Result<Year, RefusedAt>) -> Year
    ensures { result ≡ given_or fresh_year (why_alone read) }
{
    match read {
        Ok(y) => y,
        Err(_) => Year::fresh(),
    }
}

// A year's minutes, or zeros.
pub(crate) fn minutes_or_zero(found: Result<YearMinutes, Refusal>) -> YearMinutes
    ensures { result ≡ given_or no_minutes found }
{
    match found {
        Ok(minutes) => minutes,
        Err(_) => YearMinutes { first: 0, end: 0 },
    }
}

// A plan's outages, or none.
pub(crate) fn listed_or_none(found: Result<Listed, RefusedAt>) -> Listed
    ensures { result ≡ given_or (list_of []) (why_alone found) }
{
    match found {
        Ok(listed) => listed,
        Err(_) => Listed {
            entries: [Entry::zero(); Plan::MOST_OUTAGES],
            count: 0,
        },
    }
}

// A message's plan, or one of zeros.
pub(crate) fn plan_or_zero(read: Result<Plan, RefusedAt>) -> Plan
    ensures { result ≡ given_or no_plan (why_alone read) }
{
    match read {
        Ok(plan) => plan,
        Err(_) => Plan::zero(),
    }
}

// A workbook's period, or zeros.
pub(crate) fn period_or_zero(made: Result<MedianPeriod, Refusal>) -> MedianPeriod
    ensures { result ≡ given_or no_medians made }
{
    match made {
        Ok(period) => period,
        Err(_) => MedianPeriod::zero(),
    }
}

// The cells of a period, or empty ones.
pub(crate) fn slots_or_empty(done: Result<[Slot; Slot::CELLS], Refusal>) -> [Slot; Slot::CELLS]
    ensures { result ≡ given_or (replicate 28 empty_slot) done }
{
    match done {
        Ok(slots) => slots,
        Err(_) => [Slot { cell: Cell::Empty }; Slot::CELLS],
    }
}

// What cells say, or zeros.
pub(crate) fn cells_or_zero(read: Result<CellsRead, RefusedAt>) -> CellsRead
    ensures { result ≡ given_or no_cells (why_alone read) }
{
    match read {
        Ok(cells) => cells,
        Err(_) => CellsRead {
            amounts: [0; Slot::AMOUNTS],
            period: MedianPeriod::zero(),
        },
    }
}

// A text, or the empty one.
pub(crate) fn text_or_empty(found: Result<Text, Refusal>) -> Text
    ensures { result ≡ given_or (text_of []) found }
{
    match found {
        Ok(text) => text,
        Err(_) => Text::empty(),
    }
}
