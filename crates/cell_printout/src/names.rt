// The names of a workbook's cells: rule 19.9.
ghost use Rattle.std.specs.Prelude.{◌≡◌, ◌<◌, ◌≤◌};
ghost use Rattle.text.specs.Text.{pushed};
ghost use Rattle.cell_printout.specs.Names.{name_of, period_name, year_name, year_word};

use cells::Slot;
use text::{Text, push_all, push_decimal};

// What a year's four cells are.
#[tactic(auto, unfolding(crate::specs::Names::year_word))]
fn push_year_word(t: Text, kind: usize) -> Text
    requires { kind < 4 }
    ensures { result ≡ pushed t (year_word kind) }
{
    match kind {
        0 => push_all(t, b"revenue "),
        1 => push_all(t, b"cap "),
        2 => push_all(t, b"floor "),
        _ => push_all(t, b"within-period adjustment "),
    }
}

// The name of a year's cell: its word, and the year from 1.
#[tactic(auto, using(text::proofs::Laws::pushes), unfolding(crate::specs::Names::year_name))]
fn push_year_name(t: Text, i: usize) -> Text
    requires { i < 20 }
    ensures { result ≡ pushed t (year_name i) }
{
    let word = push_year_word(t, i % 4);
    push_decimal(word, (i / 4 + 1) as u64)
}

// The name of a cell behind those of the years.
#[tactic(auto, unfolding(crate::specs::Names::period_name))]
fn push_period_name(t: Text, i: usize) -> Text
    requires { (20 ≤ i) × (i < 28) }
    ensures { result ≡ pushed t (period_name i) }
{
    match i {
        20 => push_all(t, b"A"),
        21 => push_all(t, b"C"),
        22 => push_all(t, b"F"),
        23 => push_all(t, b"W"),
        24 => push_all(t, b"adjustment"),
        25 => push_all(t, b"first day"),
        26 => push_all(t, b"last day"),
        _ => push_all(t, b"median"),
    }
}

// The name of a cell.
#[tactic(auto, unfolding(crate::specs::Names::name_of))]
pub(crate) fn push_name(t: Text, i: usize) -> Text
    requires { i < 28 }
    ensures { result ≡ pushed t (name_of i) }
{
    if i < Slot::YEARLY {
        return push_year_name(t, i);
    }
    push_period_name(t, i)
}
