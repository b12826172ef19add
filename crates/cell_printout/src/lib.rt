// A cell of the regulator's workbook as a line of CSV: rule 19.9.
#![tactic(auto)]

mod names;

ghost use Rattle.std.specs.Prelude.{◌≡◌, cond, [], ◌∷◌, ◌++◌, ◌<◌, ◌≤◌};
ghost use Rattle.cells.specs.Cells.{twice_in};
ghost use Rattle.text.specs.Text.{pushed, signed_decimal, text_of};
ghost use Rattle.cell_printout.specs.Names.{name_of};
ghost use Rattle.cell_printout.specs.Printout.{halves_text, is_empty, may_stand, PrintCellGives};

use cells::{Cell, Slot, amount_in};
use floats::halves_of;
use names::push_name;
use refusals::Refusal;
use text::{Text, push, push_all, push_decimal, push_signed};

// The name of a cell, and a comma.
#[tactic(auto, using(text::proofs::Laws::pushes))]
fn begun(index: usize) -> Text
    requires { index < 28 }
    ensures { result ≡ pushed (text_of []) (name_of index ++ (44 ∷ [])) }
{
    let name = push_name(Text::empty(), index);
    push(name, b',')
}

fn is_empty(cell: Cell) -> bool
    ensures { result ≡ is_empty cell }
{
    matches!(cell, Cell::Empty)
}

// An amount in decimal, and nothing for an empty cell.
#[tactic(auto, unfolding(text::specs::Text::pushed))]
fn push_amount(t: Text, cell: Cell, z: i64) -> Text
    ensures { result ≡ pushed t (cond (is_empty cell) [] (signed_decimal z)) }
{
    if is_empty(cell) {
        return t;
    }
    push_signed(t, z)
}

// k halves in decimal.
#[tactic(auto, using(text::proofs::Laws::pushes), unfolding(crate::specs::Printout::halves_text))]
fn push_halves(t: Text, k: u64) -> Text
    ensures { result ≡ pushed t (halves_text k) }
{
    let whole = push_decimal(t, k / 2);
    if k % 2 == 0 {
        return whole;
    }
    push_all(whole, b".5")
}

// The line of an amount's cell.
fn amount_line(index: usize, cell: Cell) -> Result<Text, Refusal>
    requires { index < 25 }
    ensures { PrintCellGives index cell result }
{
    let z = amount_in(index, cell).ok_or(Refusal::BadCell)?;
    let told = push_amount(begun(index), cell, z);
    Ok(push(told, b'\n'))
}

// Twice the day that a cell holds.
fn halves_in(cell: Cell) -> Option<u64>
    ensures { result ≡ twice_in cell }
{
    match cell {
        Cell::Day(x) => halves_of(x),
        Cell::Empty | Cell::Number(_) => None,
    }
}

// Whether k halves may stand at an index: the median alone may end in one.
fn may_stand(index: usize, k: u64) -> bool
    ensures { result ≡ may_stand index k }
{
    index == Slot::MEDIAN || k % 2 == 0
}

// The line of a day's cell.
fn day_line(index: usize, cell: Cell) -> Result<Text, Refusal>
    requires { (25 ≤ index) × (index < 28) }
    ensures { PrintCellGives index cell result }
{
    let k = halves_in(cell).ok_or(Refusal::BadCell)?;
    if !may_stand(index, k) {
        return Err(Refusal::BadCell);
    }
    let told = push_halves(begun(index), k);
    Ok(push(told, b'\n'))
}

// A cell as a line, as `cap 3,250000000` and a newline; past index 27, or where the cell is bad by itself, it is 18.
pub fn print_cell(index: usize, cell: Cell) -> Result<Text, Refusal>
    ensures { PrintCellGives index cell result }
{
    if Slot::CELLS <= index {
        return Err(Refusal::BadCell);
    }
    if index < Slot::AMOUNTS {
        return amount_line(index, cell);
    }
    day_line(index, cell)
}
