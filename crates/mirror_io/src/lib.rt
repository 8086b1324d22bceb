//! The writes and reads that one node has in flight: at most 16 of each, for which the memory is taken
//! at the start.
#![tactic(auto)]

mod live;
mod node_io;
mod places;
mod table;

pub use live::{LiveRead, LiveWrite};
pub use node_io::{IoEnd, NodeIo};
