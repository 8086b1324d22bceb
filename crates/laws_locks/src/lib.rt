//! Theorems on the locks of the mirror: what holds at each place of each of its runs.
#![tactic(auto)]

mod calls;
mod others;
mod rounds;

pub use calls::calls_are_made;
pub use others::{nothing_is_blocked, only_up_nodes_work, other_locks_hold};
pub use rounds::{open_rounds_go_on, rounds_follow};
