// Carries out a script of calls on standard input and prints every answer: docs/REPLAY.md.
#![tactic(auto)]

mod asking;
mod beside;
mod bits;
mod calls;
mod desk;
mod fields;
mod plans;
mod returns;
mod say;
mod setting;
mod sheets;
mod showing;
mod sums;
mod workbooks;

use desk::{Desk, KEPT};
use fields::ROOM;
use levels::Book;
use outage::Log;
use std::io::{self, Read};
use year::Year;

// Carries out field after field, up to one that is no call.
fn carry_out<R: Read>(rt: &impl Print, from: &mut R, mut desk: Desk) -> io::Result<()> {
    let mut space = [0u8; ROOM];
    let mut place: u64 = 0;
    for _ in 0..u64::MAX {
        let Some(field) = fields::take(from, &mut space) else {
            return Ok(());
        };
        if !calls::carry_out(rt, field.call, &space[..field.length], &mut desk)? {
            return say::malformed(rt, place);
        }
        place = place.saturating_add(3).saturating_add(field.length as u64);
    }
    Ok(())
}

fn main(rt: HostRuntime) -> io::Result<()> {
    let years = [Year::fresh(); 5];
    let buffer = [0; KEPT];
    let desk = Desk {
        log: Log::empty_or_last(Log::LAST_REGIME_END),
        book: Book::published(),
        years,
        buffer,
        bytes: 0,
    };
    carry_out(&rt, &mut rt.stdin(), desk)
}
