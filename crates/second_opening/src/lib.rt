//! What an array opens with once its images were made into those of version 2.
#![tactic(auto)]

mod laws;

pub use laws::{upgraded_files_open_alike, upgraded_images_open_alike};
