// The number rules for C, value by value: each is the crate `numbers`' own answer, spelled as a number. It links nothing of the stream layout,
// so that a solver can link it alone.
#![tactic(auto)]

pub mod result;
pub mod solver;
