// Reads an old day sheet on standard input and prints the outages that it means, a line each; or `refused `, the number, ` at `
// and the place. Rules, section 17.
#![tactic(auto)]

mod say;

ghost use Rattle.std.specs.Prelude.{◌≤◌, length};
ghost use Rattle.input_end.specs.Input.{place_of};
ghost use Rattle.oldsheet.specs.Input.{InputGives};

use input_end::read_into;
use outage::Log;
use refusals::{Refusal, RefusedAt};
use sheet_format::Sheet;
use sheet_reading::read_sheet;
use std::io;

// A piece more than the longest sheet has always fails, so these bytes decide: rule 17.1.
const BYTES: usize = Sheet::LONGEST_BYTES + outage_field::BYTES;

// What the bytes that were read mean: as a sheet, or 13 behind the last of them where the read after it failed. Rule 17.2.
fn sheet_in(space: &[u8], read: Result<usize, usize>) -> Result<Log, RefusedAt>
    requires { place_of read ≤ length space.now }
    ensures { InputGives space.now read result }
{
    match read {
        Ok(n) => read_sheet(Log::LAST_REGIME_END, &space[..n]),
        Err(at) => {
            let why = Refusal::Malformed;
            Err(RefusedAt { why, at })
        }
    }
}

fn main(rt: HostRuntime) -> io::Result<()> {
    let mut space = [0u8; BYTES];
    let read = read_into(&mut rt.stdin(), &mut space);
    match sheet_in(&space, read) {
        Ok(log) => say::outages(&rt, log),
        Err(refused) => say::refused(&rt, refused),
    }
}
