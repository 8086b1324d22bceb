//! The command that shows what stands in the images of an array.
#![tactic(auto)]

mod showing;
#[cfg(test)]
mod tests;

pub use showing::show_images;
