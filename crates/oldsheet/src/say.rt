// Prints the outages that a sheet means, or the line of a refusal: rules 17.1 and 17.2.
ghost use Rattle.std.specs.Prelude.{◌≡◌, ◌≤◌};
ghost use Rattle.text.specs.Text.{room, text_of};
ghost use Rattle.oldsheet.specs.Printout.{refusal_line};

use outage::Log;
use refusals::RefusedAt;
use sheet_printout::print_outage;
use std::io;
use text::{Text, push, push_all, push_decimal};

// Writes a text.
fn line(rt: &impl Print, t: Text) -> io::Result<()>
    requires { t.length ≤ room }
{
    rt.write_all(&t.bytes[..t.length])
}

// The outages of a log, a line each: rule 17.1.
pub(crate) fn outages(rt: &impl Print, log: Log) -> io::Result<()> {
    for e in log.entries.iter().take(log.count) {
        line(rt, print_outage(*e).unwrap_or(Text::empty()))?;
    }
    Ok(())
}

// The line of a refusal, with its number and its place: rule 17.2.
fn refusal_line(number: u64, place: u64) -> Text
    ensures { (result ≡ text_of (refusal_line number place)) × (result.length ≤ room) }
{
    let word = push_all(Text::empty(), b"refused ");
    let numbered = push_decimal(word, number);
    let at = push_all(numbered, b" at ");
    let placed = push_decimal(at, place);
    push(placed, b'\n')
}

pub(crate) fn refused(rt: &impl Print, refused: RefusedAt) -> io::Result<()> {
    let number = u64::from(refused.why.number());
    line(rt, refusal_line(number, refused.at as u64))
}
