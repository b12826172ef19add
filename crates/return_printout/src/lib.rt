// What `daysheet` prints of a return: rules, section 11.
#![tactic(auto)]

ghost use Rattle.std.specs.Prelude.{◌≡◌, true, [], ◌≤◌};
ghost use Rattle.refusals.specs.Refusals.{refusal_number};
ghost use Rattle.outage.specs.Calls.{lost_of};
ghost use Rattle.text.specs.Text.{decimal, pushed, room, signed_decimal, text_of};
ghost use Rattle.return_format.specs.Return.{valid_year};
ghost use Rattle.return_printout.specs.Printout.{line_of, lost_after, lost_in_year, printed_year, refusal_of, year_lines, PrintGives};

use calendar::year_minutes;
use outage::{Log, lost_energy};
use refusals::Refusal;
use return_reading::read_return;
use revenue::revenue_of;
use text::{Text, push, push_all, push_decimal, push_signed};
use year::Year;

// A line of a word and a number.
fn with_line(t: Text, word: &[u8], n: u64) -> Text
    ensures { result ≡ pushed t (line_of word.now (decimal n)) }
{
    let begun = push_all(t, word);
    let told = push_decimal(begun, n);
    push(told, b'\n')
}

// A line of a word and a signed number.
fn with_signed_line(t: Text, word: &[u8], z: i64) -> Text
    ensures { result ≡ pushed t (line_of word.now (signed_decimal z)) }
{
    let begun = push_all(t, word);
    let told = push_signed(begun, z);
    push(told, b'\n')
}

// The line of a refusal.
fn refusal(why: Refusal) -> Text
    ensures { result ≡ pushed (text_of []) (refusal_of (refusal_number why)) }
{
    with_line(Text::empty(), b"refused ", why.number() as u64)
}

// The line of a refusal, which `workbook` prints too: rules 11.2 and 20.4.
pub fn print_refusal(why: Refusal) -> Text
    ensures { (result ≡ text_of (refusal_of (refusal_number why))) × (result.length ≤ room) }
{
    refusal(why)
}

// MW-minutes lost from minute a to minute b, 0 beside a refusal.
fn lost_between(log: Log, a: u32, b: u32) -> u64
    ensures { result ≡ lost_of log a b }
{
    lost_energy(log, a, b).unwrap_or(0)
}

// The four lines of a year, of its figures.
fn lines_of(number: u8, lost: u64, carried: u64, pounds: i64) -> Text
    ensures { result ≡ pushed (text_of []) (year_lines number lost carried pounds) }
{
    let a = with_line(Text::empty(), b"year ", number as u64);
    let b = with_line(a, b"lost ", lost);
    let c = with_line(b, b"carried ", carried);
    with_signed_line(c, b"revenue ", pounds)
}

// The four lines of a year that was read, with its assessed revenue.
fn year_lines(y: Year, pounds: i64) -> Text
    requires { valid_year y ≡ true }
    ensures { result ≡ pushed (text_of []) (year_lines y.number (lost_in_year y) (lost_after y) pounds) }
{
    let minutes = year_minutes(y.number, Log::LAST_REGIME_END).unwrap();
    let lost = lost_between(y.log, minutes.first, minutes.end);
    let carried = lost_between(y.log, minutes.end, Log::LAST_REGIME_END);
    lines_of(y.number, lost, carried, pounds)
}

// What is printed of a year that was read.
fn print_year(y: Year) -> Text
    requires { valid_year y ≡ true }
    ensures { result ≡ pushed (text_of []) (printed_year y) }
{
    match revenue_of(y) {
        Ok(z) => year_lines(y, z),
        Err(why) => refusal(why),
    }
}

// The text that `daysheet` prints of these bytes.
pub fn print_return(s: &[u8]) -> Text
    ensures { PrintGives s.now result }
{
    match read_return(s) {
        Ok(y) => print_year(y),
        Err(refused) => refusal(refused.why),
    }
}
