//! What all nodes of an array have of copying, of recoveries and of devices on their way in or out: a
//! table for each, with a place for each of sixteen nodes.
//!
//! After resync, recovery and the messages on devices of Linux md-cluster
//! (`Documentation/driver-api/md/md-cluster.rst`). All memory is taken when a table is made.
#![tactic(auto)]

mod additions;
mod copies;
mod node_adding;
mod node_copy;
mod node_rec;
mod places;
mod recoveries;
#[cfg(test)]
mod tests;

pub use additions::Additions;
pub use copies::Copies;
pub use recoveries::Recoveries;
