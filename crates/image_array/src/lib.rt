//! The images of an array together: whether its legs go with each other, what they say of it, and the
//! values of their data.
#![tactic(auto)]

mod agreement;
mod heads;
mod laws;
mod legs;
mod lookups;
mod marks;
#[cfg(test)]
mod tests;
mod values;

pub use heads::{Head, head_of};
pub use image_faults::{ImageError, ImageFault, LegEnd, LegImage};
pub use laws::images_are_opened;
pub use legs::{legs_in, read_next};
pub use values::add_values;
