// What stands is set to anything, in range or not.
use super::fields::{entry_at, i64_at, u8_at, u16_at, u32_at};
use codec::number;
use levels::Book;
use outage::{Entry, Log};
use year::{Line, Year};

// What a slot is set to: where start, end and MW are 0 and the cause is left out, a zero slot.
fn slot_at(s: &[u8]) -> Entry {
    let e = entry_at(s, 2, 6, 10, 12);
    if s.len() == 12 && e.start == 0 && e.end == 0 && e.mw == 0 {
        Entry::zero()
    } else {
        e
    }
}

// A slot of the log.
pub(crate) fn slot(s: &[u8], log: &mut Log) {
    let i = (number(s, 0, 2) % 400) as usize;
    log.entries[i] = slot_at(s);
}

// The log's count and regime end.
pub(crate) fn count(s: &[u8], log: &mut Log) {
    log.count = number(s, 0, 8) as usize;
    log.regime_end = u32_at(s, 8);
}

// The log's closed minute.
pub(crate) fn closed(s: &[u8], log: &mut Log) {
    log.closed = u32_at(s, 0);
}

// The book.
pub(crate) fn book_at(s: &[u8]) -> Book {
    Book {
        regime_end: u32_at(s, 0),
        first_target: u32_at(s, 4),
        last_target: u32_at(s, 8),
        pcl: i64_at(s, 12),
        pfl: i64_at(s, 20),
        pcac: i64_at(s, 28),
        pcaf: i64_at(s, 36),
        orac: i64_at(s, 44),
        oraf: i64_at(s, 52),
        miss_factor: u16_at(s, 60),
    }
}

// A year, but for its lines and its log.
pub(crate) fn year(s: &[u8], y: &mut Year) {
    y.number = u8_at(s, 1);
    y.pppi = u32_at(s, 2);
    y.rate = u32_at(s, 6);
    y.aic = u16_at(s, 10);
    y.pyc = u16_at(s, 12);
    y.pyf = u16_at(s, 14);
    y.exceptional = u8_at(s, 16) == 1;
    y.wpa = i64_at(s, 17);
    y.line_count = number(s, 25, 8) as usize;
}

// A line slot of a year.
pub(crate) fn line(s: &[u8], y: &mut Year) {
    let i = (number(s, 1, 1) % 64) as usize;
    y.lines[i] = Line {
        kind: u8_at(s, 2),
        currency: u8_at(s, 3),
        amount: i64_at(s, 4),
    };
}
