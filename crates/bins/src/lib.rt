// The tolerance code of document 01 at a bin: the kernels that `numbers` and `stream` share. No user reaches them: they take any bin and any
// code, and it is their callers who refuse.
#![tactic(auto)]

pub mod bin;
mod float;
mod halves;
pub mod kernel;
mod whole;
