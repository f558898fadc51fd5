// The number rules of documents 01 and 02: the lossless code, the difference code, the tolerance code and bound, for binary32 and binary64 bit patterns.
// It links nothing but std, `words` and `bins`, so that a solver can link it without the streams.
#![tactic(auto)]

pub mod bound;
pub mod difference;
pub mod lossless;
pub mod signed;
pub mod tolerance;
