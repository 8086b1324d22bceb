//! Runs a wire script: each of its lines is a call on one lock space that is spread over nodes, or
//! the query what a node holds, and one line of text is written for each.
#![tactic(auto)]

mod replies;
mod running;
#[cfg(test)]
mod tests;

pub use running::{RunEnd, run_wire};
