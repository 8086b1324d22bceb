//! What is wrong with the image of a leg: its size, its slots; and where legs differ.
#![tactic(auto)]

mod comparing;
mod faults;
mod legs;
mod sizes;
mod slots;
#[cfg(test)]
mod tests;

pub use comparing::compare;
pub use faults::{ImageError, ImageFault};
pub use legs::{LegEnd, LegImage, read_leg};
pub use sizes::{chunk_in, length_fault, size_fault, sizes_of};
pub use slots::read_slot;
