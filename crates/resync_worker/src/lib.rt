//! Copying of chunks from one leg of a mirror to the others: which sector comes next, and which chunk is
//! completed.
//!
//! After resync and recovery of the Linux kernel's md (`md(4)`) and the windows of
//! `Documentation/driver-api/md/md-cluster.rst`, in which other nodes don't write. The order of sectors
//! is this project's own. No call takes memory.
#![tactic(auto)]

mod buffer;
mod pass;

pub use buffer::Buffer;
pub use pass::Pass;
