// A table of words that a case lends: what stands in it before the call, and how it is shown after.
use line::Page;

// A word of such a table, of 32 or 64 bits. It has no laws, since the battery promises no bytes.
pub trait Word: Copy + Into<u64> {
    // The number above it; above the largest stands 0.
    fn next(self) -> Self;

    // The digest `before` once it has taken in the word.
    fn digest(self, before: u32) -> u32;
}

impl Word for u32 {
    fn next(self) -> u32 {
        self.wrapping_add(1)
    }

    fn digest(self, before: u32) -> u32 {
        before.wrapping_mul(16_777_619).wrapping_add(self)
    }
}

impl Word for u64 {
    fn next(self) -> u64 {
        self.wrapping_add(1)
    }

    // Its low half comes first.
    fn digest(self, before: u32) -> u32 {
        let low = (self & 0xffff_ffff) as u32;
        let high = (self >> 32) as u32;
        high.digest(low.digest(before))
    }
}

// Word i becomes first + i, so that a line shows which words the call wrote.
pub fn mark<W: Word>(table: &mut [W], first: W) {
    let mut mark = first;
    for word in table {
        *word = mark;
        mark = mark.next();
    }
}

// All words of a short table, or the digest of a long one.
pub fn put<W: Word>(out: &mut Page, table: &[W]) {
    if table.len() <= 60 {
        for &word in table {
            out.spaced(word.into());
        }
    } else {
        let digest = table.iter().fold(0, |digest, word| word.digest(digest));
        out.text(b" #");
        out.decimal(digest.into());
    }
}
