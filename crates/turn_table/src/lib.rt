//! One value that running threads take in turn. Who was told of an entry of its list finds the
//! entry in every later turn.
#![tactic(auto)]

mod plays;
mod seats;
mod steps;
mod stories;
#[cfg(test)]
mod tests;
mod turns;
mod views;

pub use seats::{Busy, Note, OpenEnd, Seat};
pub use stories::{Act, Story};
pub use turns::Turn;
