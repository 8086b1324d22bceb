//! A node's view of the legs of a mirror: their roles, those that it lost, and the array's size.
//! Which legs it writes and reads, what it proposes to the others, and what becomes of it in a round.
#![tactic(auto)]

mod laws;
mod legs;
mod roles;
#[cfg(test)]
mod tests;
mod view;

pub use laws::{
    changes_keep_working, finishers_have_legs, legs_are_found, losers_have_legs,
    proposers_have_legs, roles_are_found, takers_have_legs,
};
pub use roles::{least_leg, with_role, working_of, written_of};
pub use view::{Lose, View};
