//! Theorems on message rounds: what holds over every list of the calls of senders and receivers, of
//! grants, and of nodes that come in, leave and die.
#![tactic(auto)]

mod going;
mod laws;

pub use going::{rounds_are_told, rounds_go_on, told_rounds_go_on};
pub use laws::rounds_are_sound;
