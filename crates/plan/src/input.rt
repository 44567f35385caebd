// What the program reads, and the words for what it could not do. A read that fails is told from the end of the input.
ghost use Rattle.std.specs.Prelude.{length};
ghost use Rattle.plan.specs.Inputs.{Taken, Within};

use std::io;
use std::io::{Read, Write};

// Reads until the input ends or the room for it is full; `read_exact` fails where the input ends first. The loop of
// `cases::input::read_full` is alike: there the count outlives a read that fails, here the error does.
pub fn read<R: Read>(from: &mut R, file: &mut [u8]) -> io::Result<usize>
    ensures within { Within (length file.old) result }
    ensures taken { Taken (R.remaining from.old) (R.remaining from.new) file.new result }
{
    let mut got = 0;
    while got < file.len() {
        let more = from.read(&mut file[got..])?;
        if more == 0 {
            break;
        }
        got += more;
    }
    Ok(got)
}

pub fn complain<W: Write>(to: &mut W, words: &[u8]) {
    let _ = to.write_all(words);
}
