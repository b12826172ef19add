// What stands, all of it.
use levels::Book;
use outage::Log;
use std::io;
use year::Year;

// A log: its count, its regime end, its closed minute and its slots.
pub(crate) fn log(rt: &impl Print, log: &Log) -> io::Result<()> {
    print!(rt; "{} {} {}", log.count, log.regime_end, log.closed)?;
    for e in &log.entries {
        print!(rt; " {} {} {} {}", e.start, e.end, e.mw, e.cause)?;
    }
    println!(rt)
}

// A year.
pub(crate) fn year(rt: &impl Print, y: &Year) -> io::Result<()> {
    print!(rt;
        "{} {} {} {} {} {}",
        y.number, y.pppi, y.rate, y.aic, y.pyc, y.pyf
    )?;
    print!(rt; " {} {} {}", y.line_count, u8::from(y.exceptional), y.wpa)?;
    for l in &y.lines {
        print!(rt; " {} {} {}", l.kind, l.currency, l.amount)?;
    }
    print!(rt; " ")?;
    log(rt, &y.log)
}

// The book.
pub(crate) fn book(rt: &impl Print, b: &Book) -> io::Result<()> {
    print!(rt; "{} {} {}", b.regime_end, b.first_target, b.last_target)?;
    print!(rt; " {} {} {} {}", b.pcl, b.pfl, b.pcac, b.pcaf)?;
    println!(rt; " {} {} {}", b.orac, b.oraf, b.miss_factor)
}
