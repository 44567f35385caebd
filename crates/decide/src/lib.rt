// What is decided when stage 1 is free: whether the turn goes on, and else who is taken next.
#![tactic(auto)]

pub mod settle;
