// Prints what the calls answer, a line each.
use outage::Entry;
use refusals::Refusal;
use std::io;

// An outage that was to be entered, its cause where that is not 1, and the answer.
pub(crate) fn entered(rt: &impl Print, e: Entry, answer: Result<(), Refusal>) -> io::Result<()> {
    print!(rt; "enter {} to {} at {} MW", e.start, e.end, e.mw)?;
    if e.cause != 1 {
        print!(rt; ", cause {}", e.cause)?;
    }
    match answer {
        Ok(()) => println!(rt; ": done"),
        Err(why) => println!(rt; ": refused {}", why.number()),
    }
}

// The MW-minutes lost in a stretch.
pub(crate) fn lost(rt: &impl Print, when: &str, energy: Result<u64, Refusal>) -> io::Result<()> {
    match energy {
        Ok(x) => println!(rt; "lost {when}: {x} MW-minutes"),
        Err(why) => println!(rt; "lost {when}: refused {}", why.number()),
    }
}
