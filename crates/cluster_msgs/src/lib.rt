//! The messages of a cluster of mirror nodes, as value blocks of 64 bytes.
//!
//! The kinds of messages are those of Linux md-cluster (`enum msg_type` of `drivers/md/md-cluster.c`),
//! CHANGE_CAPACITY among them. The layout of the 64 bytes and what CHANGE_CAPACITY holds are this
//! project's own. All numbers are little endian, and one value has one spelling. No call takes memory.
#![tactic(auto)]

mod fields;
mod laws;
mod msg;
mod ranges;
mod reading;
#[cfg(test)]
mod tests;

pub use laws::{
    blocks_say_their_range, blocks_say_what_they_spell, messages_have_one_spelling,
    ranges_have_one_spelling,
};
pub use msg::{Body, Msg};
pub use ranges::{read_range, write_range};
pub use reading::{read_msg, write_msg};
