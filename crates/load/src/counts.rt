// The three counts of a load.
#[derive(Clone, Copy, Debug, PartialEq, Eq)]
pub struct Counts {
    pub stages: usize,
    pub flows: usize,
    pub blocks: usize,
}
