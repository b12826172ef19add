// A period's amounts and days as cells: rule 19.5.
ghost use Rattle.std.specs.Prelude.{◌≡◌, ◌-◌, ◌≤◌, not, ltb};
ghost use Rattle.workbook_cells.specs.Workbook.{bad_amount, exported, first_from};
ghost use Rattle.workbook_cells.specs.Calls.{ExportGives};

use cells::{Cell, Slot, cell_of, good_amount};
use median_period::MedianPeriod;
use refusals::Refusal;

// Whether the amounts from one index to before another are in range.
fn are_good(amounts: [i64; Slot::AMOUNTS], from: usize, to: usize) -> bool
    requires { (from ≤ to) × (to ≤ 25) }
    ensures { result ≡ not (ltb (first_from (bad_amount amounts) (to - from) from) to) }
{
    (from..to).all(|i| good_amount(i, amounts[i]))
}

// The cells of the amounts and of the period.
fn all_slots(amounts: [i64; Slot::AMOUNTS], period: MedianPeriod) -> [Slot; Slot::CELLS]
    ensures { result ≡ exported amounts period }
{
    let mut slots = [Slot { cell: Cell::Empty }; Slot::CELLS];
    for (i, z) in amounts.iter().enumerate() {
        slots[i].cell = cell_of(i, *z);
    }
    slots[Slot::FIRST_DAY].cell = Cell::Day(period.first);
    slots[Slot::LAST_DAY].cell = Cell::Day(period.last);
    slots[Slot::MEDIAN].cell = Cell::Day(period.median);
    slots
}

// The 28 cells of a period: 9 for a yearly amount out of range, then 12 for the period, then 11 for a balance or the adjustment.
pub fn export_period(
    amounts: [i64; Slot::AMOUNTS],
    period: MedianPeriod,
) -> Result<[Slot; Slot::CELLS], Refusal>
    ensures { ExportGives amounts period result }
{
    if !are_good(amounts, 0, Slot::YEARLY) {
        return Err(Refusal::BadYear);
    }
    if !period.is_good() {
        return Err(Refusal::BadPeriod);
    }
    if !are_good(amounts, Slot::YEARLY, Slot::AMOUNTS) {
        return Err(Refusal::TooLarge);
    }
    Ok(all_slots(amounts, period))
}
