//! The member record of a cluster of sixteen nodes: who is live, whose bitmap slot waits for its
//! recovery, and the numbers of events.
//!
//! As in Linux md-cluster (`Documentation/driver-api/md/md-cluster.rst`) each node has a bitmap slot,
//! which another node recovers after the node's death, and the events counter of the superblock
//! (`md(4)`) rises with each change of the array. Heirs, fences and pending slots in one record are this
//! project's own. No call takes memory.
#![tactic(auto)]

mod error;
mod record;
#[cfg(test)]
mod tests;

pub use error::MemberError;
pub use record::Record;
