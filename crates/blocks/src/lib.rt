// Blocks of 32 codes of w bits each, which are 4w whole bytes: written and read with an arm for each width w.
// It is a part of the stream layout that knows nothing of streams, and serves it alone.
#![tactic(auto)]

pub mod block32;
pub mod block64;
pub mod bytes;
mod reading;
