// Old day sheets read and written, and outages printed.
use super::beside::log_or_empty;
use super::desk::KEPT;
use super::fields::{entry_at, u32_at};
use super::{returns, say, sums};
use codec::number;
use outage::Log;
use sheet_printout::{print_minute, print_outage};
use sheet_reading::read_sheet;
use sheet_writing::write_sheet;
use std::io;

// A sheet read: the log that it gives, the empty one beside a refusal.
pub(crate) fn read(rt: &impl Print, regime_end: u32, s: &[u8]) -> io::Result<Log> {
    let read = read_sheet(regime_end, s);
    let (n, at) = say::number_at(read);
    let log = log_or_empty(read, regime_end);
    println!(rt; "{n} {at} {} {}", log.count, sums::more_of_log(0, &log))?;
    Ok(log)
}

// The log written into a buffer of the room asked for, in two bytes or four, and its sum or all of it said.
pub(crate) fn write(rt: &impl Print, s: &[u8], log: &Log, whole: bool) -> io::Result<()> {
    let mut space = returns::room::<KEPT>();
    let n = (number(s, 0, s.len()) as usize).min(space.len());
    returns::lent(rt, &mut space[..n], whole, |out| write_sheet(*log, out))
}

// The date and time of a minute.
pub(crate) fn minute(rt: &impl Print, s: &[u8]) -> io::Result<()> {
    returns::printed(rt, print_minute(u32_at(s, 0)))
}

// An outage as `oldsheet` prints it.
pub(crate) fn outage(rt: &impl Print, s: &[u8]) -> io::Result<()> {
    returns::printed(rt, print_outage(entry_at(s, 0, 4, 8, 10)))
}
