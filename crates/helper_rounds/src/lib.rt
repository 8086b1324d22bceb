//! The helping events of message rounds: of each line of a node's list at most one event, the first of its
//! alternatives whose condition and guards hold.
#![tactic(auto)]

mod guarding;
mod locks;
mod messages;
mod own_round;
mod superblocks;

pub use guarding::allowed;
pub use locks::granting;
pub use messages::receiving;
pub use own_round::{asking, sending};
pub use superblocks::joining;
