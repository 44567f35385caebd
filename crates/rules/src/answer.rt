// The counts of a plan.

// What is counted of the rows: blocks listed, turns, rounds, turns held, held ticks in sum, and the end.
#[derive(Clone, Copy, Debug, Default, PartialEq, Eq)]
pub struct Summary {
    pub blocks: u64,
    pub turns: u64,
    pub rounds: u64,
    pub held: u64,
    pub ticks: u64,
    pub end: u64,
}
