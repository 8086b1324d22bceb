//! The lock space of a distributed lock manager for sixteen nodes and twenty-one resources.
//!
//! Nodes are numbered below 16. Resources are numbered below 21: the bitmaps of the nodes are 0 to 15,
//! `token` 16, `message` 17, `ack` 18, `no-new-dev` 19 and `resync` 20. Which modes agree, and which
//! conversions write and read the value block, is the table of the Linux kernel's DLM. No call takes
//! memory.
#![tactic(auto)]

mod answers;
mod ask;
mod laws;
mod resource;
mod space;
#[cfg(test)]
mod tests;

pub use answers::{Converted, Granted, LockError};
pub use ask::Ask;
pub use laws::{calls_are_sound, letting_go_releases, locks_are_orderly};
pub use space::Space;
