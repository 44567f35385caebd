// The accounts of a round: its number, how many turns of it are to come, its credit, and the largest excess that a turn of it
// has left so far.
#[derive(Clone, Copy, Debug, Default, PartialEq, Eq)]
pub struct Round {
    pub number: u64,
    pub left: u64,
    pub credit: u64,
    pub most: u64,
}
