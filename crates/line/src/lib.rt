// What a program prints is made on a page, one byte behind the other, and written by one function.
#![tactic(auto)]

ghost use Rattle.std.specs.Prelude.{◌<◌, [], ◌∷◌, ◌≡◌, ◌≤◌, length, replicate, OnOk};
ghost use Rattle.std.specs.Io.KnownBytes.{Appends};
ghost use Rattle.line.specs.Numerals.{decimal_of, hex_digit_ascii, hex_of, last_digits};
ghost use Rattle.line.specs.Pages.{bytes_of, Put, room};

use std::io;
use std::io::Write;

// Room for the listing of a load: 512 lines of at most 326 bytes, and the line of the counts.
pub const ROOM: usize = 196_608;

// The first `len` of the bytes are there, and behind them is room. Any bytes with any `len` are a page, so a caller may make one of bytes
// of its own, and go on behind any of them. A page whose `len` is beyond the room is full.
#[derive(Clone, Copy, Debug, PartialEq, Eq)]
pub struct Page {
    pub bytes: [u8; ROOM],
    pub len: usize,
}

impl Page {
    // A page that has no bytes. Its room holds zeros.
    pub fn new() -> Page
        ensures { result ≡ record { bytes = replicate room 0; len = 0 } }
    {
        Page {
            bytes: [0; ROOM],
            len: 0,
        }
    }

    // How many bytes the page has: the field may be beyond the room, this is not.
    pub fn len(&self) -> usize
        ensures value { result ≡ length (bytes_of self.now) }
        ensures within { result ≤ room }
    {
        self.len.min(ROOM)
    }

    // Begins the page anew. What stood on it stays in its room until other bytes are put there.
    pub fn clear(&mut self)
        ensures { self.new ≡ record self.old { len = 0 } }
    {
        self.len = 0;
    }

    // A full page takes no more.
    pub fn put(&mut self, byte: u8)
        ensures { Put self.old (byte ∷ []) self.new }
    {
        if self.len < ROOM {
            self.bytes[self.len] = byte;
            self.len += 1;
        }
    }

    // Of a text a page takes as many bytes as it has room for.
    pub fn text(&mut self, bytes: &[u8])
        ensures { Put self.old bytes.now self.new }
    {
        let len = self.len();
        let more = bytes.len().min(ROOM - len);
        self.bytes[len..len + more].copy_from_slice(&bytes[..more]);
        self.len += more;
    }

    // Digits are put one by one, here and in hexadecimal: `write!` would make of each line a `fmt::Result` that is never an `Err`.
    #[tactic(auto, using(crate::proofs::Pages::put_both, crate::proofs::Digits::decimal_laws))]
    pub fn decimal(&mut self, n: u64)
        ensures { Put self.old (decimal_of n) self.new }
    {
        if 10 <= n {
            self.decimal(n / 10);
        }
        self.put(b'0' + (n % 10) as u8);
    }

    // A space and a number.
    #[tactic(auto, using(crate::proofs::Pages::put_both))]
    pub fn spaced(&mut self, n: u64)
        ensures { Put self.old (32 ∷ decimal_of n) self.new }
    {
        self.put(b' ');
        self.decimal(n);
    }

    // Two hexadecimal digits.
    #[tactic(auto, using(crate::proofs::Pages::put_both, crate::proofs::Digits::hex_two))]
    fn hex_byte(&mut self, byte: u8)
        ensures { Put self.old (last_digits 16 2 byte) self.new }
    {
        self.put(hex_digit(byte / 16));
        self.put(hex_digit(byte % 16));
    }

    // The bytes in hexadecimal, or a dash where there are none.
    #[tactic(auto, using(crate::proofs::Pages::page_laws, crate::proofs::Digits::hex_laws), unfolding(crate::specs::Numerals::hex_digits))]
    pub fn hex(&mut self, bytes: &[u8])
        ensures { Put self.old (hex_of bytes.now) self.new }
    {
        if bytes.is_empty() {
            return self.put(b'-');
        }
        for &byte in bytes {
            self.hex_byte(byte);
        }
    }

    // Ends the line.
    pub fn end(&mut self)
        ensures { Put self.old (10 ∷ []) self.new }
    {
        self.put(b'\n');
    }

    // The bytes put so far, for a caller that shows them itself.
    pub fn as_slice(&self) -> &[u8]
        ensures { result.now ≡ bytes_of self.now }
    {
        &self.bytes[..self.len()]
    }

    // Writes the page. No other function of the libraries writes what a program prints.
    pub fn write<W: Write>(&self, to: &mut W) -> io::Result<()>
        ensures { OnOk result (Appends (W.contents to.old) (W.contents to.new) (bytes_of self.now)) }
    {
        to.write_all(self.as_slice())
    }
}

// A hexadecimal digit in lower case.
fn hex_digit(d: u8) -> u8
    requires { d < 16 }
    ensures { result ≡ hex_digit_ascii d }
{
    if d < 10 { b'0' + d } else { b'a' - 10 + d }
}
