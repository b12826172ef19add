// Reads a return and writes it again into a lent buffer: its own bytes come back.
#![tactic(auto)]

ghost use Rattle.return_refiling.specs.Refiled.{RefileGives};

use refusals::Refusal;
use return_reading::read_return;
use return_writing::write_return;

// The bytes of a return at the front of the buffer, and their number; or 13 or 14, and not a byte written.
pub fn refile(s: &[u8], out: &mut [u8]) -> Result<usize, Refusal>
    ensures { RefileGives s.now out.old result out.new }
{
    let y = read_return(s)?;
    write_return(y, out)
}
