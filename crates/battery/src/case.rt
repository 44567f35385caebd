// A case after its head: its parts are read, its call is made, and its line is put on the page.
use cases::head::{Call, Head};
use cases::input::read_full;
use cases::{BadCase, answer, table};
use line::Page;
use std::io::Read;

fn sound(out: &mut Page, file: &[u8]) {
    out.text(b"sound");
    out.spaced(load::refusal::number(loadfile::sound(file)));
}

fn read(out: &mut Page, file: &[u8], blocks: &mut [u32]) {
    table::mark(blocks, 4_000_000_000);
    answer::put(out, b"read", loadfile::read(file, blocks));
    table::put(out, blocks);
}

fn name(out: &mut Page, file: &[u8], standing: &[u8], flow: usize) {
    out.text(b"name ");
    out.hex(loadfile::name(file, standing, flow));
}

// Reads the next part of a case. The input may not end inside it.
fn read_part<R: Read>(from: &mut R, part: &mut [u8]) -> Result<(), BadCase> {
    if read_full(from, part) < part.len() {
        return Err(BadCase);
    }
    Ok(())
}

// The room for a case's parts, and for the tables that it lends.
#[derive(Drop)]
pub struct Room {
    file: [u8; 65_536],
    standing: [u8; 65_536],
    blocks: [u32; 8_192],
    rows: [u64; 16_384],
}

impl Room {
    pub fn new() -> Room {
        Room {
            file: [0; 65_536],
            standing: [0; 65_536],
            blocks: [0; 8_192],
            rows: [0; 16_384],
        }
    }

    // Reads what follows the head, and makes the case's call, with tables of just the words that it asks for. The case is bad where
    // there is no room for a part or a table, the input ends inside, or a plan's parameters are wrong. No byte is read where there is
    // no room for one of the parts.
    pub fn run<R: Read>(
        &mut self,
        from: &mut R,
        head: Head,
        out: &mut Page,
    ) -> Result<(), BadCase> {
        let file = self.file.get_mut(..head.file).ok_or(BadCase)?;
        let standing = self.standing.get_mut(..head.standing).ok_or(BadCase)?;
        read_part(from, standing)?;
        read_part(from, file)?;
        match head.call {
            Call::Sound => sound(out, file),
            Call::Read(words) => {
                let blocks = self.blocks.get_mut(..words).ok_or(BadCase)?;
                read(out, file, blocks);
            }
            Call::Name(flow) => name(out, file, standing, flow),
            Call::Plan => planned::run(out, standing, file, &mut self.blocks, &mut self.rows)?,
        }
        Ok(())
    }
}
