// Prints the cells of a workbook, or the line of a refusal: rule 20.4.
ghost use Rattle.std.specs.Prelude.{◌≤◌};
ghost use Rattle.text.specs.Text.{room};

use cell_printout::print_cell;
use cells::Slot;
use refusals::Refusal;
use return_printout::print_refusal;
use std::io;
use text::Text;

// Writes a text.
fn line(rt: &impl Print, t: Text) -> io::Result<()>
    requires { t.length ≤ room }
{
    rt.write_all(&t.bytes[..t.length])
}

// The cells in order, a line each.
pub(crate) fn cells(rt: &impl Print, slots: [Slot; Slot::CELLS]) -> io::Result<()> {
    for (i, slot) in slots.iter().enumerate() {
        line(rt, print_cell(i, slot.cell).unwrap_or(Text::empty()))?;
    }
    Ok(())
}

pub(crate) fn refused(rt: &impl Print, why: Refusal) -> io::Result<()> {
    line(rt, print_refusal(why))
}
