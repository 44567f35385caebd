// A row of the plan: 15 words of 64 bits.
use crate::stages::Way;

#[derive(Clone, Copy, Debug, PartialEq, Eq)]
pub struct Row {
    pub block: u64,
    pub flow: u64,
    pub round: u64,
    pub turn: u64,
    pub balance: u64,
    pub hold: u64,
    pub stage: u64,
    pub way: Way,
}
