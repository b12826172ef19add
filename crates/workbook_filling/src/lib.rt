// The cells of a period from its five returns: what `workbook` prints. Rules, section 20.
#![tactic(auto)]

ghost use Rattle.workbook_filling.specs.Filling.{FillGives};

use cells::Slot;
use median_period::{MedianPeriod, make_period};
use refusals::Refusal;
use workbook_cells::export_period;
use workbook_input::read_workbook;

// The 28 cells of the period whose measurement days and returns these bytes are; or the first refusal of reading, entering,
// assessment and export. Days that are no period are three zeros, which the export refuses.
pub fn fill_workbook(s: &[u8]) -> Result<[Slot; Slot::CELLS], Refusal>
    ensures { FillGives s.now result }
{
    let read = read_workbook(s)?;
    let period = make_period(read.first, read.last).unwrap_or(MedianPeriod::zero());
    export_period(read.amounts, period)
}
