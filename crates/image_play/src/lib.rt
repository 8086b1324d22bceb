//! Plays a script over the images of an array: it opens their legs, plays the lines, and gives the legs
//! back whatever ended the lines.
#![tactic(auto)]

mod ends;
mod running;

pub use ends::ImagesEnd;
pub use running::play_images;
