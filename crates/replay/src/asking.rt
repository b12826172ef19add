// The calls on log, book and year, each with its answer.
ghost use Rattle.std.specs.Prelude.{◌≤◌};

use super::beside::{log_or_last, minutes_or_zero};
use super::desk::Desk;
use super::fields::{cause_at, entry_at, i64_at, period_at, u8_at, u32_at};
use super::{say, sums};
use assessment::assess_period;
use balances::{Figures, Yearly, assess};
use calendar::year_minutes;
use levels::{Levels, availability_of, check_target, levels_of};
use outage::{Key, Log, lost_energy};
use refusals::{Refusal, answer_number};
use settlement::{gap_between, growth_at, pay};
use std::io;
use year::Year;

// Says what a call on the log gave: its number, and the count and the sum of the log.
fn logged(rt: &impl Print, n: u8, log: &Log) -> io::Result<()> {
    println!(rt; "{n} {} {}", log.count, sums::more_of_log(0, log))
}

pub(crate) fn empty(rt: &impl Print, s: &[u8], log: &mut Log) -> io::Result<()> {
    let made = Log::empty(u32_at(s, 0));
    *log = log_or_last(made);
    logged(rt, answer_number(made), log)
}

pub(crate) fn enter(rt: &impl Print, s: &[u8], log: &mut Log) -> io::Result<()> {
    let answer = outage::enter(log, entry_at(s, 0, 4, 8, 10));
    logged(rt, answer_number(answer), log)
}

pub(crate) fn cancel(rt: &impl Print, s: &[u8], log: &mut Log) -> io::Result<()> {
    let key = Key {
        start: u32_at(s, 0),
        cause: cause_at(s, 4, s.len()),
    };
    let answer = outage::cancel(log, key);
    logged(rt, answer_number(answer), log)
}

pub(crate) fn close(rt: &impl Print, s: &[u8], log: &mut Log) -> io::Result<()> {
    let answer = outage::close(log, u32_at(s, 0));
    logged(rt, answer_number(answer), log)
}

pub(crate) fn lost(rt: &impl Print, s: &[u8], log: &Log) -> io::Result<()> {
    say::one(rt, lost_energy(*log, u32_at(s, 0), u32_at(s, 4)))
}

pub(crate) fn minutes(rt: &impl Print, s: &[u8]) -> io::Result<()> {
    let found = year_minutes(u8_at(s, 0), u32_at(s, 1));
    let n = answer_number(found);
    let minutes = minutes_or_zero(found);
    println!(rt; "{n} {} {}", minutes.first, minutes.end)
}

pub(crate) fn availability(rt: &impl Print, s: &[u8], desk: &Desk) -> io::Result<()> {
    say::one(rt, availability_of(desk.book, desk.log, u8_at(s, 0)))
}

pub(crate) fn target(rt: &impl Print, s: &[u8], desk: &Desk) -> io::Result<()> {
    let met = check_target(desk.book, desk.log, u8_at(s, 0));
    say::one(rt, met.map(|met| u8::from(met)))
}

pub(crate) fn levels(rt: &impl Print, y: &Year, desk: &Desk) -> io::Result<()> {
    let found = levels_of(desk.book, *y, desk.log);
    let n = answer_number(found);
    let levels = found.unwrap_or(Levels { cap: 0, floor: 0 });
    println!(rt; "{n} {} {}", levels.cap, levels.floor)
}

// A, C, F, W, T and the adjustment.
fn assessed(rt: &impl Print, found: Result<Figures, Refusal>) -> io::Result<()> {
    let n = answer_number(found);
    let f = found.unwrap_or(Figures {
        revenue: 0,
        cap: 0,
        floor: 0,
        wpa: 0,
        held: 0,
        adjustment: 0,
    });
    print!(rt; "{n} {} {} {}", f.revenue, f.cap, f.floor)?;
    println!(rt; " {} {} {}", f.wpa, f.held, f.adjustment)
}

// One amount of each of five rows of 36 bytes, the first from `at` on.
fn amounts_at(s: &[u8], at: usize) -> [i64; Yearly::YEARS]
    requires { at ≤ 36 }
{
    let mut amounts = [0; Yearly::YEARS];
    for (k, z) in amounts.iter_mut().enumerate() {
        *z = i64_at(s, at + 36 * k);
    }
    amounts
}

fn rows_at(s: &[u8]) -> Yearly {
    let mut index = [0; Yearly::YEARS];
    for (k, i) in index.iter_mut().enumerate() {
        *i = u32_at(s, 36 * k);
    }
    let revenue = amounts_at(s, 4);
    let cap = amounts_at(s, 12);
    let floor = amounts_at(s, 20);
    let wpa = amounts_at(s, 28);
    Yearly {
        index,
        revenue,
        cap,
        floor,
        wpa,
    }
}

pub(crate) fn rows(rt: &impl Print, s: &[u8]) -> io::Result<()> {
    assessed(rt, assess(rows_at(s)))
}

pub(crate) fn period(rt: &impl Print, desk: &Desk) -> io::Result<()> {
    assessed(rt, assess_period(desk.book, desk.years, desk.log))
}

pub(crate) fn gap(rt: &impl Print, s: &[u8]) -> io::Result<()> {
    say::one(rt, gap_between(period_at(s, 0, 4), period_at(s, 8, 12)))
}

pub(crate) fn growth(rt: &impl Print, s: &[u8]) -> io::Result<()> {
    say::one(rt, growth_at(u32_at(s, 0)))
}

pub(crate) fn payment(rt: &impl Print, s: &[u8]) -> io::Result<()> {
    say::one(rt, pay(i64_at(s, 0), u32_at(s, 8)))
}

pub(crate) fn settle(rt: &impl Print, s: &[u8]) -> io::Result<()> {
    let (earlier, later) = (period_at(s, 8, 12), period_at(s, 16, 20));
    say::one(rt, settlement::settle(i64_at(s, 0), earlier, later))
}

pub(crate) fn reconcile(rt: &impl Print, s: &[u8]) -> io::Result<()> {
    let (settled, reconciled) = (period_at(s, 16, 20), period_at(s, 24, 28));
    say::one(
        rt,
        settlement::reconcile(i64_at(s, 0), i64_at(s, 8), settled, reconciled),
    )
}
