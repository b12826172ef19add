// Reads one yearly return on standard input and prints its year, the MW-minutes lost in the year and after its end, and
// the assessed revenue; or `refused ` and the number. Rules, section 11.
#![tactic(auto)]

use input_end::read_whole;
use return_format::Return;
use return_printout::print_return;
use std::io;

// One byte more than a return may have is enough to refuse it.
const BYTES: usize = Return::MOST_BYTES + 1;

fn main(rt: HostRuntime) -> io::Result<()> {
    let mut space = [0u8; BYTES];
    let n = read_whole(&mut rt.stdin(), &mut space);
    let text = print_return(&space[..n]);
    rt.write_all(&text.bytes[..text.length])
}
