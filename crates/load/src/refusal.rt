// Document 01's refusals, each with its number, and the number of a verdict.
ghost use Rattle.std.specs.Prelude.{◌≡◌};
ghost use Rattle.load.specs.Refusals.{number_of, verdict_number};

#[derive(Clone, Copy, Debug, PartialEq, Eq)]
pub enum Refusal {
    // The file is empty, or its first byte isn't 1.
    Version = 1,
    // The file is under 10 bytes, or its length word isn't the count of bytes after byte 4.
    FileLength = 2,
    // The stage count isn't 1 to 4.
    Stages = 3,
    // Over 64 flows or over 1,024 blocks.
    TooMany = 4,
    // A record's length byte is wrong, a record runs past the end, or bytes are left over.
    Record = 5,
    // A name byte is outside 33 to 126.
    NameByte = 6,
    // A lent table is too short.
    ShortTable = 7,
    // A block's flow number isn't below the flow count.
    NoSuchFlow = 8,
    // An arrival or a time is above its limit, or a time is above 0 for a stage that the load lacks.
    OverLimit = 9,
    // All times of a block are 0.
    AllZero = 10,
    // A block arrives before the one above it.
    OutOfOrder = 11,
}

impl Refusal {
    // Document 01's number for this refusal.
    pub fn number(self) -> u64
        ensures { result ≡ number_of self }
    {
        self as u64
    }
}

// Document 01's number for a verdict: 0 where nothing is refused.
pub fn number(verdict: Result<(), Refusal>) -> u64
    ensures { result ≡ verdict_number verdict }
{
    match verdict {
        Ok(()) => 0,
        Err(why) => why.number(),
    }
}
