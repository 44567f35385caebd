// One record of a load file, read from its length byte on, with the big-endian numbers in it; and an entry of the standing list.
// `specs/Records.antt` says what the bytes of a record mean.
#![tactic(auto)]

pub mod bytes;
pub mod record;
pub mod standing;
