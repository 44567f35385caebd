// Reads a load file from standard input, plans it and prints the plan.
#![tactic(auto)]

ghost use Rattle.std.specs.Prelude.{OnOk, ◌≡◌};
ghost use Rattle.std.specs.Io.KnownBytes.{Appends};
ghost use Rattle.line.specs.Pages.{bytes_of};
ghost use Rattle.listing.specs.Listing.{listing as Listing·listing};

mod input;

use line::Page;
use std::io;
use std::io::Write;

// The one write. `file` is there for what is asked: that just its listing is written.
fn write<W: Write>(to: &mut W, file: &[u8], page: &Page) -> io::Result<()>
    requires { bytes_of page.now ≡ Listing·listing file.now }
    ensures { OnOk result (Appends (W.contents to.old) (W.contents to.new) (Listing·listing file.now)) }
{
    page.write(to)
}

// The listing is made on one page, so that it is known before a byte of it is written.
fn print<W: Write, E: Write>(to: &mut W, complaints: &mut E, file: &[u8]) {
    let mut page = Page::new();
    listing::make(file, &mut page);
    if write(to, file, &page).is_err() {
        input::complain(complaints, b"plan: cannot write to standard output\n");
    }
}

// The buffer takes the first 65,536 bytes of the input.
fn main(rt: HostRuntime) {
    let mut file = [0; 65_536];
    match input::read(&mut rt.stdin(), &mut file) {
        Ok(n) => print(&mut rt.stdout(), &mut rt.stderr(), &file[..n]),
        Err(_) => input::complain(&mut rt.stderr(), b"plan: cannot read standard input\n"),
    }
}
