// The operations on streams for C: numbers and slices in, one 64-bit number out. Each is the library's own answer, spelled as a number.
#![tactic(auto)]

mod answer;
pub mod streams;
pub mod summaries;
