// What is read of an input, and what counts of it where a read moves nothing: rules 11.2 and 20.4.
#![tactic(auto)]

ghost use Rattle.std.specs.Prelude.{◌≡◌, ◌≤◌, length, take};
ghost use Rattle.input_end.specs.Input.{counted_at, place_of, AsFarAs, Whole};

use std::io::Read;

// What `counted` is told of a read that failed: a number below zero.
const FAILED: isize = -1;

// How many of n bytes count where the read after them answers that it moved nothing, or that it failed.
pub fn counted(n: usize, answer: isize) -> usize
    ensures { (result ≤ n) × (result ≡ counted_at answer n) }
{
    if answer < 0 { 0 } else { n }
}

// Reads until the input ends or buf is full, and answers how many bytes stand at the start of buf; as an error where a read fails.
pub fn read_into<R: Read>(from: &mut R, buf: &mut [u8]) -> Result<usize, usize>
    ensures within { place_of result ≤ length buf.new }
    ensures prefix { place_of result ≡ length (take (place_of result) buf.new) }
    ensures known { AsFarAs (R.remaining from.old) (R.remaining from.new) result buf.new }
{
    let mut done: usize = 0;
    while done < buf.len() {
        match from.read(&mut buf[done..]) {
            Ok(0) => return Ok(done),
            Ok(more) => done += more,
            Err(_) => return Err(done),
        }
    }
    Ok(done)
}

// Reads until the input ends or buf is full, and answers how many bytes count at the start of buf. A read that fails is not the
// end: of an input that is not read to its end nothing counts.
pub fn read_whole<R: Read>(from: &mut R, buf: &mut [u8]) -> usize
    ensures within { result ≤ length buf.new }
    ensures prefix { result ≡ length (take result buf.new) }
    ensures known { Whole (R.remaining from.old) (R.remaining from.new) result buf.new }
{
    match read_into(from, buf) {
        Ok(n) => counted(n, 0),
        Err(n) => counted(n, FAILED),
    }
}
