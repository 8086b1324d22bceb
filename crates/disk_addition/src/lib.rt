//! Devices on their way in and out of a mirror: their names, and what the wishes on them need.
#![tactic(auto)]

mod addition;
mod devices;
#[cfg(test)]
mod tests;

pub use addition::Addition;
pub use devices::{Devices, device_uuid};
