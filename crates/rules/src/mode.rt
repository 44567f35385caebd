// The planner between two starts: idle, or it holds a flow, or it is in a flow's turn with a balance.

// A flow that was taken from the list at its ready tick.
#[derive(Clone, Copy, Debug, PartialEq, Eq)]
pub struct HeldFlow {
    pub flow: usize,
    pub excess: u64,
    pub ready: u64,
}

// A flow's turn. What is spent counts the flow's excess in, so the balance is the allowance less what is spent.
#[derive(Clone, Copy, Debug, PartialEq, Eq)]
pub struct Turn {
    pub flow: usize,
    pub allowance: u64,
    pub spent: u64,
}

#[derive(Clone, Copy, Debug, PartialEq, Eq)]
pub enum Mode {
    Idle,
    Holds(HeldFlow),
    InTurn(Turn),
}
