// Amounts and a period from 28 cells, or the first bad one: rule 19.6.
ghost use Rattle.std.specs.Prelude.{◌≡◌};
ghost use Rattle.cells.specs.Cells.{day_float};
ghost use Rattle.workbook_cells.specs.Calls.{ReadCellsGives, period_in};
ghost use Rattle.workbook_cells.specs.Steps.{amounts_read, bad_at};

use cells::{Cell, Slot, amount_in};
use median_period::MedianPeriod;
use refusals::{Refusal, RefusedAt};

// The amounts in the order of the cells, and the period.
#[derive(Clone, Copy, Debug, PartialEq)]
pub struct CellsRead {
    pub amounts: [i64; Slot::AMOUNTS],
    pub period: MedianPeriod,
}

// The cell at an index is bad.
fn bad_at(at: usize) -> RefusedAt
    ensures { result ≡ bad_at at }
{
    RefusedAt {
        why: Refusal::BadCell,
        at,
    }
}

// The amounts of the first 25 cells.
fn read_amounts(slots: [Slot; Slot::CELLS]) -> Result<[i64; Slot::AMOUNTS], RefusedAt>
    ensures { result ≡ amounts_read slots }
{
    let mut amounts = [0; Slot::AMOUNTS];
    for i in 0..Slot::AMOUNTS {
        amounts[i] = amount_in(i, slots[i].cell).ok_or(bad_at(i))?;
    }
    Ok(amounts)
}

// The float of a day's cell; of another kind 0.0, which is no day.
fn day_float(slot: Slot) -> f64
    ensures { result ≡ day_float slot.cell }
{
    match slot.cell {
        Cell::Day(x) => x,
        Cell::Number(_) | Cell::Empty => 0.0,
    }
}

fn period_in(slots: [Slot; Slot::CELLS]) -> MedianPeriod
    ensures { result ≡ period_in slots }
{
    MedianPeriod {
        first: day_float(slots[Slot::FIRST_DAY]),
        last: day_float(slots[Slot::LAST_DAY]),
        median: day_float(slots[Slot::MEDIAN]),
    }
}

// The amounts and the period of 28 cells; or 18, with the index of the first bad one.
pub fn read_cells(slots: [Slot; Slot::CELLS]) -> Result<CellsRead, RefusedAt>
    ensures { ReadCellsGives slots result }
{
    let amounts = read_amounts(slots)?;
    let period = period_in(slots);
    let days = period.days();
    if days.first == 0 {
        return Err(bad_at(Slot::FIRST_DAY));
    }
    if days.last < days.first {
        return Err(bad_at(Slot::LAST_DAY));
    }
    if !period.is_good() {
        return Err(bad_at(Slot::MEDIAN));
    }
    Ok(CellsRead { amounts, period })
}
