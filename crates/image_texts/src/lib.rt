//! The printed texts of the commands on images, exact to the byte: what was created or upgraded, what
//! is wrong with an image, what a shelf failed at, and what is shown of images.
#![tactic(auto)]

mod faults;
mod lines;
mod sets;
mod shown;
#[cfg(test)]
mod tests;

pub use lines::{created_text, image_text, shelf_text, upgraded_text};
pub use shown::show_text;
