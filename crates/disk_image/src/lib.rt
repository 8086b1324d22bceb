//! The images of an array: one file a leg.
#![tactic(auto)]

mod creating;
mod image;
mod laws;
mod names;
#[cfg(test)]
mod tests;

pub use creating::create;
pub use image_faults::{ImageError, ImageFault};
pub use laws::new_images_are_sound;
pub use names::{leg_name, name_field};
