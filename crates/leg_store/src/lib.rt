//! Legs: devices of sectors that may fail, one in memory, and the paths from nodes to legs.
#![tactic(auto)]

mod device;
mod memory;
mod paths;

pub use device::LegDev;
pub use memory::{Left, MemLeg};
pub use paths::PathTable;
