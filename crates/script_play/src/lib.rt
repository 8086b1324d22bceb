//! Plays the lines of a script over a world, and writes a line of text for each.
#![tactic(auto)]

mod checking;
mod drivers;
mod playing;
mod queries;
mod running;

pub use running::{RunEnd, run_lines};
