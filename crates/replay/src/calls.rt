// The table of calls, a line each. A call is 100,000 times the field's tag and the length of its value: `4_00008` is tag 4 with
// 8 bytes. Where any length will do, 99,999 stands for it, which no field has. Where a cause may be left out, a call has two
// lengths.
use super::desk::Desk;
use super::fields::{behind, u32_at, year_at};
use super::{asking, plans, returns, say, setting, sheets, showing, workbooks};
use codec::number;
use revenue::revenue_of;
use std::io;
use year::Year;

// The call as the tables have it, or 0 where a slot, a line, a mark, the place of a year, the room of a buffer or the kind of a
// cell is missing or none.
fn listed(call: u64, s: &[u8]) -> u64 {
    let k = number(s, 0, 1);
    match call / 100_000 {
        8 | 9 | 18 | 21 | 37 | 38 | 39 | 49 | 51 => fitting(call, k < 5),
        17 => fitting(17_99999, !s.is_empty() && k < 5),
        19 => fitting(19_99999, 1 < s.len()),
        20 => 20_99999,
        23 => fitting(23_99999, 3 < s.len()),
        32 => fitting(call, number(s, 0, 2) < 400),
        35 => fitting(call, k < 5 && number(s, 16, 1) < 2),
        36 => fitting(call, k < 5 && number(s, 1, 1) < 64),
        40 => 40_99999,
        66 => 66_99999,
        71 => fitting(call, workbooks::good_kinds(s)),
        72 => fitting(call, number(s, 4, 1) < 3),
        73 => 73_99999,
        _ => call,
    }
}

fn fitting(call: u64, fits: bool) -> u64 {
    if fits { call } else { 0 }
}

// Carries out a call, and says whether it is one.
pub(crate) fn carry_out(rt: &impl Print, call: u64, s: &[u8], desk: &mut Desk) -> io::Result<bool> {
    let call = listed(call, s);
    if set(call, s, desk) {
        say::set(rt)?;
        return Ok(true);
    }
    Ok(
        change(rt, call, s, desk)?
            || ask(rt, call, s, desk)?
            || ask_of_value(rt, call, s)?
            || workbook(rt, call, s)?,
    )
}

// The calls that set what stands: whether it is one of them.
fn set(call: u64, s: &[u8], desk: &mut Desk) -> bool {
    let k = year_at(s);
    match call {
        32_00012 | 32_00013 => setting::slot(s, &mut desk.log),
        33_00012 => setting::count(s, &mut desk.log),
        34_00062 => desk.book = setting::book_at(s),
        35_00033 => setting::year(s, &mut desk.years[k]),
        36_00012 => setting::line(s, &mut desk.years[k]),
        37_00001 => desk.years[k] = Year::fresh(),
        38_00001 => desk.years[k].log = desk.log,
        39_00001 => desk.log = desk.years[k].log,
        40_99999 => desk.keep(s),
        41_00000 => desk.bytes = 0,
        42_00004 => setting::closed(s, &mut desk.log),
        _ => return false,
    }
    true
}

// The calls that change the log or a year and give an answer: whether it is one of them.
fn change(rt: &impl Print, call: u64, s: &[u8], desk: &mut Desk) -> io::Result<bool> {
    let k = year_at(s);
    match call {
        1_00004 => asking::empty(rt, s, &mut desk.log)?,
        2_00010 | 2_00011 => asking::enter(rt, s, &mut desk.log)?,
        3_00004 | 3_00005 => asking::cancel(rt, s, &mut desk.log)?,
        17_99999 => desk.years[k] = returns::read(rt, behind(s, 1))?,
        21_00001 => desk.years[k] = returns::read(rt, desk.kept())?,
        23_99999 => desk.log = sheets::read(rt, u32_at(s, 0), behind(s, 4))?,
        24_00004 => desk.log = sheets::read(rt, u32_at(s, 0), desk.kept())?,
        28_00004 => asking::close(rt, s, &mut desk.log)?,
        65_00014 | 65_00015 => plans::enter(rt, s, &mut desk.log)?,
        _ => return Ok(false),
    }
    Ok(true)
}

// The calls that change nothing, on what stands: whether it is one of them.
fn ask(rt: &impl Print, call: u64, s: &[u8], desk: &Desk) -> io::Result<bool> {
    let y = &desk.years[year_at(s)];
    match call {
        4_00008 => asking::lost(rt, s, &desk.log)?,
        6_00001 => asking::availability(rt, s, desk)?,
        7_00001 => asking::target(rt, s, desk)?,
        8_00001 => asking::levels(rt, y, desk)?,
        9_00001 => say::one(rt, revenue_of(*y))?,
        11_00000 => asking::period(rt, desk)?,
        18_00003 => returns::write(rt, s, y, false)?,
        22_00004 => returns::refile_kept(rt, s, desk.kept())?,
        25_00004 => sheets::write(rt, s, &desk.log, false)?,
        48_00000 => showing::log(rt, &desk.log)?,
        49_00001 => showing::year(rt, y)?,
        50_00000 => showing::book(rt, &desk.book)?,
        51_00003 => returns::write(rt, s, y, true)?,
        52_00002 => sheets::write(rt, s, &desk.log, true)?,
        _ => return Ok(false),
    }
    Ok(true)
}

// The calls on their value alone, but for those of a workbook: whether it is one of them.
fn ask_of_value(rt: &impl Print, call: u64, s: &[u8]) -> io::Result<bool> {
    match call {
        5_00005 => asking::minutes(rt, s)?,
        10_00180 => asking::rows(rt, s)?,
        12_00016 => asking::gap(rt, s)?,
        13_00004 => asking::growth(rt, s)?,
        14_00012 => asking::payment(rt, s)?,
        15_00024 => asking::settle(rt, s)?,
        16_00032 => asking::reconcile(rt, s)?,
        19_99999 => returns::refile(rt, s)?,
        20_99999 => returns::print(rt, s)?,
        26_00004 => sheets::minute(rt, s)?,
        27_00010 | 27_00011 => sheets::outage(rt, s)?,
        64_00018 | 64_00019 => plans::list(rt, s)?,
        66_99999 => plans::read(rt, s)?,
        67_00018 | 67_00019 => plans::write(rt, s)?,
        _ => return Ok(false),
    }
    Ok(true)
}

// The calls of a workbook: whether it is one of them.
fn workbook(rt: &impl Print, call: u64, s: &[u8]) -> io::Result<bool> {
    match call {
        68_00008 => workbooks::make(rt, s)?,
        69_00048 => workbooks::gap(rt, s)?,
        70_00224 => workbooks::export(rt, s)?,
        71_00252 => workbooks::read(rt, s)?,
        72_00013 => workbooks::print(rt, s)?,
        73_99999 => workbooks::fill(rt, s)?,
        _ => return Ok(false),
    }
    Ok(true)
}
