//! The machine's state in memory: what an array opens with, the state without the legs, the
//! transfers between a node and a leg, and the changes that several rows make.
#![tactic(auto)]

mod attempt;
mod changes;
mod checks;
mod empty;
mod legs;
mod offer;
mod sets;
mod setters;
mod state;

pub use attempt::Attempt;
pub use checks::check;
pub use legs::{read_leg, receive, send};
pub use offer::Offer;
pub use sets::{fresh_targets, rebuilding_of};
pub use state::CoreState;
