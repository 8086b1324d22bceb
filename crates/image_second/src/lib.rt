//! Images of version 2 that are made of those of version 1.
#![tactic(auto)]

mod image;
mod pages;
mod sizes;

pub use image::second_image;
