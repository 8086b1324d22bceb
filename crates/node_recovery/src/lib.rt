//! The recovery of a dead node's bitmap slot: which of its pages were read, and which were cleared.
//!
//! After "Handling Failures: Node Failure" of the Linux kernel's
//! `Documentation/driver-api/md/md-cluster.rst`: a node takes the bitmap lock of the dead node's slot,
//! copies the bits of the slot into its own, and clears the slot. Which page comes next is this
//! project's own.
#![tactic(auto)]

mod recovery;

pub use recovery::Recovery;
