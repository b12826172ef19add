// Periods and cells of a workbook: made, exported, read, printed and filled.
ghost use Rattle.std.specs.Prelude.{◌≤◌};

use super::beside::{cells_or_zero, period_or_zero, slots_or_empty};
use super::bits::{bits_of, float_at};
use super::fields::{i64_at, u8_at, u32_at};
use super::{returns, say};
use cell_printout::print_cell;
use cells::{Cell, Slot};
use codec::number;
use median_period::{MedianPeriod, gap_of_medians, make_period};
use refusals::{Refusal, answer_number};
use std::io;
use workbook_cells::{export_period, read_cells};
use workbook_filling::fill_workbook;

// A period of three floats, from `at` on.
fn period_at(s: &[u8], at: usize) -> MedianPeriod
    requires { at ≤ 200 }
{
    MedianPeriod {
        first: float_at(s, at),
        last: float_at(s, at + 8),
        median: float_at(s, at + 16),
    }
}

// The end of an answer, which is a period.
fn say_period(rt: &impl Print, p: MedianPeriod) -> io::Result<()> {
    println!(rt;
        " {} {} {}",
        bits_of(p.first),
        bits_of(p.last),
        bits_of(p.median)
    )
}

pub(crate) fn make(rt: &impl Print, s: &[u8]) -> io::Result<()> {
    let made = make_period(u32_at(s, 0), u32_at(s, 4));
    print!(rt; "{}", answer_number(made))?;
    say_period(rt, period_or_zero(made))
}

pub(crate) fn gap(rt: &impl Print, s: &[u8]) -> io::Result<()> {
    say::one(rt, gap_of_medians(period_at(s, 0), period_at(s, 24)))
}

// A cell, from `at` on: its kind, and its float.
fn cell_at(s: &[u8], at: usize) -> Cell
    requires { at ≤ 300 }
{
    let x = float_at(s, at + 1);
    match u8_at(s, at) {
        1 => Cell::Number(x),
        2 => Cell::Day(x),
        _ => Cell::Empty,
    }
}

// Whether each of the 28 cells, from the start on, is of a kind that there is.
pub(crate) fn good_kinds(s: &[u8]) -> bool {
    (0..Slot::CELLS).all(|i| number(s, 9 * i, 1) <= 2)
}

fn say_cell(rt: &impl Print, cell: Cell) -> io::Result<()> {
    match cell {
        Cell::Empty => print!(rt; " 0 0"),
        Cell::Number(x) => print!(rt; " 1 {}", bits_of(x)),
        Cell::Day(x) => print!(rt; " 2 {}", bits_of(x)),
    }
}

// Says what an export gave: the number, and each cell, an empty one beside a refusal.
fn exported(rt: &impl Print, done: Result<[Slot; Slot::CELLS], Refusal>) -> io::Result<()> {
    print!(rt; "{}", answer_number(done))?;
    let slots = slots_or_empty(done);
    for slot in &slots {
        say_cell(rt, slot.cell)?;
    }
    println!(rt)
}

// The amounts, from the start on.
fn amounts_at(s: &[u8]) -> [i64; Slot::AMOUNTS] {
    let mut amounts = [0; Slot::AMOUNTS];
    for (i, z) in amounts.iter_mut().enumerate() {
        *z = i64_at(s, 8 * i);
    }
    amounts
}

pub(crate) fn export(rt: &impl Print, s: &[u8]) -> io::Result<()> {
    exported(rt, export_period(amounts_at(s), period_at(s, 200)))
}

// The 28 cells, from the start on.
fn slots_at(s: &[u8]) -> [Slot; Slot::CELLS] {
    let mut slots = [Slot { cell: Cell::Empty }; Slot::CELLS];
    for (i, slot) in slots.iter_mut().enumerate() {
        slot.cell = cell_at(s, 9 * i);
    }
    slots
}

// The number, the index of a bad cell, the amounts and the period, zeros beside a refusal.
pub(crate) fn read(rt: &impl Print, s: &[u8]) -> io::Result<()> {
    let found = read_cells(slots_at(s));
    let (n, index) = say::number_at(found);
    let read = cells_or_zero(found);
    print!(rt; "{n} {index}")?;
    for z in &read.amounts {
        print!(rt; " {z}")?;
    }
    say_period(rt, read.period)
}

pub(crate) fn print(rt: &impl Print, s: &[u8]) -> io::Result<()> {
    returns::printed(rt, print_cell(u32_at(s, 0) as usize, cell_at(s, 4)))
}

pub(crate) fn fill(rt: &impl Print, s: &[u8]) -> io::Result<()> {
    exported(rt, fill_workbook(s))
}
