// The body of a load file, all its records one after the other: tested in their order, a flow's own name found among them, and the
// blocks written to the block table.
#![tactic(auto)]

pub mod table;
pub mod walk;
