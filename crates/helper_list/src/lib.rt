//! The helping events of a node: at most one of each line, in the order of the lines. And what helps the
//! cluster on next: the first event of the least live node that has one.
#![tactic(auto)]

mod helped;
mod listed;
#[cfg(test)]
mod tests;

pub use helped::{is_live, next_help};
pub use listed::{enabled, first_enabled};
