// A cell of the regulator's workbook by itself: what it may hold at its index, and an amount as a cell. Rules 19.1 and 19.4.
#![tactic(auto)]

ghost use Rattle.std.specs.Prelude.{◌≡◌};
ghost use Rattle.cells.specs.Cells.{amount_in, cell_of, good_amount, is_level, is_within, most_at};

use floats::{float_of, whole_of};
use money::{is_negative, within};

// What a cell holds: nothing, a number, or a day that may end in a half.
#[derive(Clone, Copy, Debug, PartialEq)]
pub enum Cell {
    Empty,
    Number(f64),
    Day(f64),
}

// A place of the workbook, which holds a cell.
#[derive(Clone, Copy, Debug, PartialEq)]
pub struct Slot {
    pub cell: Cell,
}

impl Slot {
    // The cells of a period.
    pub const CELLS: usize = 28;

    // Those of them that hold amounts, and of these the ones of its years.
    pub const AMOUNTS: usize = 25;

    pub const YEARLY: usize = 20;

    pub const FIRST_DAY: usize = 25;

    pub const LAST_DAY: usize = 26;

    pub const MEDIAN: usize = 27;
}

// The cell of a year's within-period adjustment, which alone may be empty.
fn is_within(i: usize) -> bool
    ensures { result ≡ is_within i }
{
    i < Slot::YEARLY && i % 4 == 3
}

// The cell of a year's cap or floor, which are not negative.
fn is_level(i: usize) -> bool
    ensures { result ≡ is_level i }
{
    i < Slot::YEARLY && (i % 4 == 1 || i % 4 == 2)
}

// The most that the amount at an index has in magnitude.
#[tactic(auto, unfolding(crate::specs::Cells::most_at))]
fn most_at(i: usize) -> u64
    ensures { result ≡ most_at i }
{
    if i < Slot::YEARLY {
        1_000_000_000
    } else if i < 24 {
        10_000_000_000
    } else {
        30_000_000_000
    }
}

// Whether an amount is in the range of its index.
#[tactic(auto, unfolding(crate::specs::Cells::good_amount))]
pub fn good_amount(i: usize, z: i64) -> bool
    ensures { result ≡ good_amount i z }
{
    within(z, most_at(i)) && (!is_level(i) || !is_negative(z))
}

// The cell of an amount: a within-period adjustment of 0 is left empty.
pub fn cell_of(i: usize, z: i64) -> Cell
    ensures { result ≡ cell_of i z }
{
    if is_within(i) && z == 0 {
        return Cell::Empty;
    }
    Cell::Number(float_of(z))
}

// The amount that a cell holds at an index, or that it holds none.
pub fn amount_in(i: usize, cell: Cell) -> Option<i64>
    ensures { result ≡ amount_in i cell }
{
    match cell {
        Cell::Empty => is_within(i).then_some(0),
        Cell::Number(x) => whole_of(x).filter(|z| good_amount(i, *z)),
        Cell::Day(_) => None,
    }
}
