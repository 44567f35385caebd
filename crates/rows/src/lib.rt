// A start's row: a block's way through the stages, and the row's words.
#![tactic(auto)]

pub mod row;
pub mod stages;
