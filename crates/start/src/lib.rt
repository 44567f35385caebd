// One start: the planner before the first, and the next start with the planner after it.
#![tactic(auto)]

pub mod origin;
pub mod step;
