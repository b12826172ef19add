// Checksums over rows of numbers: docs/REPLAY.md, "Checksums".
use codec::unsigned;
use outage::{Entry, Log};
use year::{Line, Year};

const MODULUS: u64 = 4_294_967_291;

// A number below 2^32 more.
fn more(sum: u64, x: u32) -> u64 {
    (sum % MODULUS * 65_599 + u64::from(x)) % MODULUS
}

// A number of 64 bits more.
fn more_wide(sum: u64, x: u64) -> u64 {
    let high = (x / 4_294_967_296) as u32;
    let low = (x % 4_294_967_296) as u32;
    more(more(sum, high), low)
}

// An entry more.
fn more_of_entry(sum: u64, e: Entry) -> u64 {
    let placed = more(more(sum, e.start), e.end);
    more(more(placed, u32::from(e.mw)), u32::from(e.cause))
}

fn more_of_line(sum: u64, l: Line) -> u64 {
    let told = more(more(sum, u32::from(l.kind)), u32::from(l.currency));
    more_wide(told, unsigned(l.amount))
}

// The slots of a list more.
pub(crate) fn more_of_entries(sum: u64, entries: &[Entry]) -> u64 {
    entries.iter().fold(sum, |sum, e| more_of_entry(sum, *e))
}

// A log more: its slots, its count, its regime end and its closed minute.
pub(crate) fn more_of_log(sum: u64, log: &Log) -> u64 {
    let slots = more_of_entries(sum, &log.entries);
    let counted = more_wide(slots, log.count as u64);
    more(more(counted, log.regime_end), log.closed)
}

// A year's number, index, rate and factors.
fn of_factors(y: &Year) -> u64 {
    let first = more(more(more(0, u32::from(y.number)), y.pppi), y.rate);
    let factors = more(more(first, u32::from(y.aic)), u32::from(y.pyc));
    more(factors, u32::from(y.pyf))
}

// And then its lines, its line count, its mark, W and its log.
pub(crate) fn of_year(y: &Year) -> u64 {
    let lines = y.lines.iter();
    let lined = lines.fold(of_factors(y), |sum, l| more_of_line(sum, *l));
    let counted = more_wide(lined, y.line_count as u64);
    let marked = more(counted, u32::from(y.exceptional));
    more_of_log(more_wide(marked, unsigned(y.wpa)), &y.log)
}

pub(crate) fn of_bytes(s: &[u8]) -> u64 {
    s.iter().fold(0, |sum, b| more(sum, u32::from(*b)))
}
