//! Opening the images of an array: its legs from their files, what stands on them, and what the array
//! opens with.
#![tactic(auto)]

mod data;
mod legs;
mod opening;
#[cfg(test)]
mod tests;
mod versions;

pub use opening::{Opened, open_array};
pub use versions::Versions;
