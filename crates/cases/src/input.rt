// Where the cases come from.
ghost use Rattle.std.specs.Prelude.{◌≤◌, length, take};
ghost use Rattle.std.specs.Io.KnownBytes.{Consumes};

use std::io::Read;

// Reads until the part is full, the input ends or a read fails, and answers how many bytes stand at the part's start. No byte that it
// takes is lost, which `read_exact` doesn't say where the input ends early. The loop of `plan::input::read` is alike: there the error
// outlives a read that fails, here the count does.
pub fn read_full<R: Read>(input: &mut R, part: &mut [u8]) -> usize
    ensures within { result ≤ length part.new }
    ensures bytes { Consumes (R.remaining input.old) (R.remaining input.new) (take result part.new) }
{
    let mut got = 0;
    while got < part.len() {
        match input.read(&mut part[got..]) {
            Ok(0) | Err(_) => break,
            Ok(more) => got += more,
        }
    }
    got
}
