// Reads the days of a measurement period and the five returns of an assessment period on standard input, and prints the 28 cells of
// the regulator's workbook, a line of CSV each; or `refused ` and the number. Rules, section 20.
#![tactic(auto)]

mod say;

use input_end::read_whole;
use std::io;
use workbook_filling::fill_workbook;
use workbook_input::WorkbookInput;

// A byte more than an input may have is enough to refuse it: rule 20.4.
const BYTES: usize = WorkbookInput::MOST_BYTES + 1;

fn main(rt: HostRuntime) -> io::Result<()> {
    let mut space = [0u8; BYTES];
    let n = read_whole(&mut rt.stdin(), &mut space);
    match fill_workbook(&space[..n]) {
        Ok(slots) => say::cells(&rt, slots),
        Err(why) => say::refused(&rt, why),
    }
}
