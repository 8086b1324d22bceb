//! What a node wants to tell: the first wish that is due and that nothing but the phase of its sender
//! stands against.
#![tactic(auto)]

mod copying;
mod devices;
mod members;
mod wanting;

pub use copying::{covered_leg, todo_chunk};
pub use members::{is_least_member, least_member};
pub use wanting::want;

#[cfg(test)]
mod tests;
