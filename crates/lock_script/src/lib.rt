//! Runs a lock script: each of its lines is a call on one lock space, or the query who waits for what a
//! node holds, and one line of text is written for each.
#![tactic(auto)]

mod replies;
mod running;
#[cfg(test)]
mod tests;

pub use running::{LocksEnd, run_locks};
