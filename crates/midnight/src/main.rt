// A first look at the log: an outage across a midnight, one that touches it, one that overlaps it, one that would lose too
// much, and the energy lost.
#![tactic(auto)]

mod say;

use outage::{Entry, Log, lost_energy};
use std::io;

// Minutes are counted from 00:00 on 31 January 2019; this is the midnight after.
const MIDNIGHT: u32 = 1_440;

// The regime ends on 1 January 2045.
const END: u32 = Log::LAST_REGIME_END;

// Enters an outage. Done or refused, the log is one to go on with.
fn enter(
    rt: &impl Print,
    log: &mut Log,
    start: u32,
    end: u32,
    mw: u16,
    cause: u8,
) -> io::Result<()> {
    let e = Entry {
        start,
        end,
        mw,
        cause,
    };
    say::entered(rt, e, outage::enter(log, e))
}

fn main(rt: HostRuntime) -> io::Result<()> {
    let mut log = Log::empty(END).unwrap();
    // one pole, 23:00 to 02:00
    enter(&rt, &mut log, 1_380, 1_560, 500, 1)?;
    // 02:00 to 03:00, which touches it
    enter(&rt, &mut log, 1_560, 1_620, 300, 1)?;
    // the other pole at the same time, 01:00 to 01:30
    enter(&rt, &mut log, 1_500, 1_530, 400, 2)?;
    // 01:10 to 01:20, when 1,001 MW would be lost
    enter(&rt, &mut log, 1_510, 1_520, 101, 3)?;
    say::lost(&rt, "before midnight", lost_energy(log, 0, MIDNIGHT))?;
    say::lost(&rt, "after midnight", lost_energy(log, MIDNIGHT, END))?;
    say::lost(&rt, "in all", lost_energy(log, 0, END))
}
