//! How the commands on images end, and how each end is printed.
#![tactic(auto)]

mod ends;
mod telling;

pub use ends::CommandEnd;
pub use telling::{tell, tell_error, tell_new};
