//! The command that makes an array of image version 2 of one of version 1.
#![tactic(auto)]

mod ends;
mod storing;
#[cfg(test)]
mod tests;
mod upgrading;

pub use upgrading::upgrade_images;
