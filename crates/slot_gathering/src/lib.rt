//! The chunks gathered from the pages of all bitmap slots, for a leg that is added again: what it
//! may have missed is what some slot marks.
//!
//! After "Adding a new Device" and re-adding in the Linux kernel's
//! `Documentation/driver-api/md/md-cluster.rst`. The order of the pages is this project's own.
#![tactic(auto)]

mod gathering;

pub use gathering::Gathering;
