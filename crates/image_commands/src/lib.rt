//! The command that makes the images of a new array.
#![tactic(auto)]

mod creating;
#[cfg(test)]
mod tests;

pub use creating::create_images;
pub use image_ends::CommandEnd;
