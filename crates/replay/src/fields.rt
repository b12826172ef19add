// The fields of a script: a tag byte, two length bytes and a value.
ghost use Rattle.std.specs.Prelude.{◌<◌, ◌≤◌, length, IfSome};

use codec::{number, signed};
use input_end::read_into;
use outage::Entry;
use settlement::Period;
use std::io::Read;

// The most bytes of a value.
pub(crate) const ROOM: usize = 65_535;

// The cause that is meant where none is written.
const LEFT_OUT: u8 = 1;

// A field of the script, its value at the front of the space. Its call is 100,000 times its tag and the length; 0 where it is cut.
#[derive(Clone, Copy)]
pub(crate) struct Field {
    pub(crate) call: u64,
    pub(crate) length: usize,
}

// The number of one, two, four bytes from `at` on.
pub(crate) fn u8_at(s: &[u8], at: usize) -> u8 {
    (number(s, at, 1) % 256) as u8
}

pub(crate) fn u16_at(s: &[u8], at: usize) -> u16 {
    (number(s, at, 2) % 65_536) as u16
}

pub(crate) fn u32_at(s: &[u8], at: usize) -> u32 {
    (number(s, at, 4) % 4_294_967_296) as u32
}

// The signed number of eight bytes from `at` on.
pub(crate) fn i64_at(s: &[u8], at: usize) -> i64 {
    signed(number(s, at, 8))
}

// A period: its first day from one place on, its last from another.
pub(crate) fn period_at(s: &[u8], first: usize, last: usize) -> Period {
    Period {
        first: u32_at(s, first),
        last: u32_at(s, last),
    }
}

// The cause from `at` on, of what ends at `end`: where nothing stands between, it is left out and is 1.
pub(crate) fn cause_at(s: &[u8], at: usize, end: usize) -> u8 {
    if at < end { u8_at(s, at) } else { LEFT_OUT }
}

// An entry: its start, its end, its MW and its cause from these places on. The value may end before the cause.
pub(crate) fn entry_at(s: &[u8], start: usize, end: usize, mw: usize, cause: usize) -> Entry {
    Entry {
        start: u32_at(s, start),
        end: u32_at(s, end),
        mw: u16_at(s, mw),
        cause: cause_at(s, cause, s.len()),
    }
}

// The bytes behind the first n.
pub(crate) fn behind(s: &[u8], n: usize) -> &[u8] {
    s.get(n..).unwrap_or(&[])
}

// The place of a year, which a value starts with.
pub(crate) fn year_at(s: &[u8]) -> usize
    ensures { result < 5 }
{
    (number(s, 0, 1) % 5) as usize
}

// Reads until buf is full, the input ends or a read fails, and answers how many bytes stand at the start of buf.
fn read_full<R: Read>(from: &mut R, buf: &mut [u8]) -> usize
    ensures { result ≤ length buf.new }
{
    match read_into(from, buf) {
        Ok(n) => n,
        Err(n) => n,
    }
}

// Takes the next field; none where the script ends.
pub(crate) fn take<R: Read>(from: &mut R, space: &mut [u8]) -> Option<Field>
    ensures { IfSome result (λ field. field.length ≤ length space.new) }
{
    let mut head = [0u8; 3];
    let began = read_full(from, &mut head);
    if began == 0 {
        return None;
    }
    let asked = usize::from(u16_at(&head, 1)).min(space.len());
    let length = read_full(from, &mut space[..asked]);
    let whole = began == head.len() && length == asked;
    let call = if whole {
        u64::from(head[0]) * 100_000 + length as u64
    } else {
        0
    };
    Some(Field { call, length })
}
