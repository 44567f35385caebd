// Runs the cases on standard input against the calls of loadfile and mr3, and writes a line for each.
#![tactic(auto)]

mod case;

use case::Room;
use cases::{BadCase, head};
use line::Page;
use std::io::{Read, Write};

// Runs the cases up to the end of the input, or up to a line that can't be written. A proved loop has to end, and nothing says that
// the input does, so the loop has more turns than a battery has cases.
fn run<R: Read, W: Write>(from: &mut R, to: &mut W) -> Result<(), BadCase> {
    let mut room = Room::new();
    let mut line = Page::new();
    for _ in 0..1_000_000 {
        let Some(head) = head::read(from)? else {
            break;
        };
        line.clear();
        room.run(from, head, &mut line)?;
        line.end();
        if line.write(to).is_err() {
            break;
        }
    }
    Ok(())
}

fn main(rt: HostRuntime) {
    if let Err(bad) = run(&mut rt.stdin(), &mut rt.stdout()) {
        let _ = println!(rt; "{bad}");
    }
}
