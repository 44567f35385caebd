// The limits of a load: the tests of its counts and of one block, which both the file reader and the plan call make.
#![tactic(auto)]

pub mod block;
pub mod counts;
