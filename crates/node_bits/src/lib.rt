//! The bitmaps of all nodes of an array, one for each of sixteen slots.
//!
//! After the bitmap slots of Linux md-cluster (`Documentation/driver-api/md/md-cluster.rst`): each node
//! marks the chunks that it writes in a slot of its own.
#![tactic(auto)]

mod bitmaps;

pub use bitmaps::Bitmaps;
