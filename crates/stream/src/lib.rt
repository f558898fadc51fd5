// The stream layout of document 01: groups, chunks, header and tables, and the operations on them. Full groups are blocks of the crate `blocks`.
#![tactic(auto)]

pub mod answers;
mod chunk;
mod chunks;
mod coding;
mod differences;
mod group;
mod group_checked;
mod group_read;
mod group_written;
pub mod header;
mod lent;
pub mod listing;
pub mod one_chunk;
pub mod pack;
pub mod probe;
pub mod reading;
mod restore;
pub mod setting;
pub mod sides;
mod tables;
