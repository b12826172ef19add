// Returns read and written.
ghost use Rattle.std.specs.Prelude.{◌≡◌, length};

use super::beside::{text_or_empty, year_or_fresh};
use super::desk::KEPT;
use super::fields::{ROOM, behind, u16_at, u32_at};
use super::{say, sums};
use refusals::{Refusal, answer_number};
use return_printout::print_return;
use return_reading::read_return;
use return_refiling::refile as refile_return;
use return_writing::write_return;
use std::io;
use text::Text;
use year::Year;

// A return read: the year that it gives, the fresh one beside a refusal.
pub(crate) fn read(rt: &impl Print, s: &[u8]) -> io::Result<Year> {
    let read = read_return(s);
    let (n, at) = say::number_at(read);
    let y = year_or_fresh(read);
    println!(rt; "{n} {at} {}", sums::of_year(&y))?;
    Ok(y)
}

// Room to lend. Its length is all that is said of it.
pub(crate) fn room<const N: usize>() -> [u8; N]
    ensures { N ≡ length result }
{
    [0; N]
}

// Every byte of a lent buffer as it is before a call.
fn fill(out: &mut [u8]) {
    for (i, b) in out.iter_mut().enumerate() {
        *b = (255 - i % 251) as u8;
    }
}

// The number, the length and the buffer: its sum, or every byte of it.
fn told(rt: &impl Print, done: Result<usize, Refusal>, out: &[u8], whole: bool) -> io::Result<()> {
    let n = answer_number(done);
    let length = done.unwrap_or(0);
    print!(rt; "{n} {length}")?;
    if !whole {
        return println!(rt; " {}", sums::of_bytes(out));
    }
    for b in out {
        print!(rt; " {b}")?;
    }
    println!(rt)
}

// What is written into a lent buffer: its sum or all of it said.
pub(crate) fn lent<F: FnOnce(&mut [u8]) -> Result<usize, Refusal>>(
    rt: &impl Print,
    out: &mut [u8],
    whole: bool,
    write: F,
) -> io::Result<()>
    requires { F.IsAlwaysCallable write }
{
    fill(out);
    let done = write(out);
    told(rt, done, out, whole)
}

// A year written into a buffer of the room asked for.
pub(crate) fn write(rt: &impl Print, s: &[u8], y: &Year, whole: bool) -> io::Result<()> {
    let mut space = room::<ROOM>();
    let n = usize::from(u16_at(s, 1)).min(space.len());
    lent(rt, &mut space[..n], whole, |out| write_return(*y, out))
}

// A return read and written again.
pub(crate) fn refile(rt: &impl Print, s: &[u8]) -> io::Result<()> {
    let mut space = room::<ROOM>();
    let n = usize::from(u16_at(s, 0)).min(space.len());
    let own = behind(s, 2);
    lent(rt, &mut space[..n], false, |out| refile_return(own, out))
}

pub(crate) fn refile_kept(rt: &impl Print, s: &[u8], kept: &[u8]) -> io::Result<()> {
    let mut space = room::<KEPT>();
    let n = (u32_at(s, 0) as usize).min(space.len());
    lent(rt, &mut space[..n], false, |out| refile_return(kept, out))
}

// A text, empty beside a refusal: its length and its sum.
pub(crate) fn printed(rt: &impl Print, found: Result<Text, Refusal>) -> io::Result<()> {
    let n = answer_number(found);
    let text = text_or_empty(found);
    let length = text.length.min(Text::ROOM);
    println!(rt; "{n} {length} {}", sums::of_bytes(&text.bytes[..length]))
}

// What `daysheet` prints of a return.
pub(crate) fn print(rt: &impl Print, s: &[u8]) -> io::Result<()> {
    printed(rt, Ok(print_return(s)))
}
