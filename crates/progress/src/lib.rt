// What a plan call counts, and what it writes in the flow table.
#![tactic(auto)]

pub mod record;
pub mod tally;
