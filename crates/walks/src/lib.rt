// Steps for proofs by hand: a slice that is lent again for a call and comes back, and a local array lent as a slice. They name
// no type of the project. There is no function here; `proofs/` has the steps. Today no proof goes by hand, and none uses them: they stay as what the
// older proofs stood on, since docs/PORT.md holds their statements to those of before.
#![tactic(auto)]
