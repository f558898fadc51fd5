// The summary beside the data: added to a stream, tested against its values, and the chunks that it names.
#![tactic(auto)]

pub mod adding;
mod chunks;
mod entry;
pub mod listed;
mod order;
pub mod testing;
