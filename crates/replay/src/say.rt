// Answers on standard output: a line of decimal numbers each.
ghost use Rattle.std.specs.Prelude.{◌≡◌};
ghost use Rattle.refusals.specs.Refusals.{answer_number, part_number, why_alone};

use refusals::{Refusal, RefusedAt, answer_number};
use std::fmt::Display;
use std::io;

// The number of an answer, and of the part at which it is refused, 0 where it is not.
pub(crate) fn number_at<T: Drop>(answer: Result<T, RefusedAt>) -> (u8, usize)
    ensures number { result.0 ≡ answer_number (why_alone answer) }
    ensures part { result.1 ≡ part_number answer }
{
    match answer {
        Ok(_) => (0, 0),
        Err(refused) => (refused.why.number(), refused.at),
    }
}

// The answer of a call that gives one figure or amount, 0 beside a refusal.
pub(crate) fn one<T: Copy + Default + Display>(
    rt: &impl Print,
    found: Result<T, Refusal>,
) -> io::Result<()> {
    let n = answer_number(found);
    let x = found.unwrap_or_default();
    println!(rt; "{n} {x}")
}

// The answer of what sets something.
pub(crate) fn set(rt: &impl Print) -> io::Result<()> {
    println!(rt; "0")
}

// The last line of a script whose field at this place is malformed.
pub(crate) fn malformed(rt: &impl Print, place: u64) -> io::Result<()> {
    println!(rt; "malformed {place}")
}
