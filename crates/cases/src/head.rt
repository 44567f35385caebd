// A case's head: which call it is for, the call's number, and how long the case's two parts are.
use crate::BadCase;
use crate::input::read_full;
use std::io::Read;

#[derive(Clone, Copy, Debug, PartialEq, Eq)]
pub enum Call {
    Sound,
    // The words of the block table that is lent.
    Read(usize),
    // The flow's number.
    Name(usize),
    Plan,
}

#[derive(Clone, Copy, Debug, PartialEq, Eq)]
pub struct Head {
    pub call: Call,
    pub standing: usize,
    pub file: usize,
}

// The call's byte, and three words of 32 bits.
impl TryFrom<[u8; 13]> for Head {
    type Error = BadCase;

    fn try_from(bytes: [u8; 13]) -> Result<Head, BadCase> {
        let (words, _) = bytes[1..].as_chunks::<4>();
        let number = u32::from_be_bytes(words[0]) as usize;
        let call = match bytes[0] {
            1 => Call::Sound,
            2 => Call::Read(number),
            3 => Call::Name(number),
            4 => Call::Plan,
            _ => return Err(BadCase),
        };
        Ok(Head {
            call,
            standing: u32::from_be_bytes(words[1]) as usize,
            file: u32::from_be_bytes(words[2]) as usize,
        })
    }
}

// The next case's head, or none where the input ends between two cases.
pub fn read<R: Read>(input: &mut R) -> Result<Option<Head>, BadCase> {
    let mut bytes = [0; 13];
    match read_full(input, &mut bytes) {
        0 => Ok(None),
        13 => Head::try_from(bytes).map(Some),
        _ => Err(BadCase),
    }
}
