// The plan by Multi-Resource Round Robin: the types that its definition and a planner share. `specs/Plan.antt` is the
// definition, `proofs/` has the theorems about it. There is no function here but those that the types derive.
#![tactic(auto)]

pub mod answer;
pub mod entry;
pub mod mode;
pub mod record;
pub mod round;
pub mod row;
pub mod stages;
