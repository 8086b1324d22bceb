//! The world: the state, the legs and the trace, and one event at a time.
#![tactic(auto)]

mod apply;
mod promises;
mod world;

pub use apply::may;
pub use world::{NoWorld, StepEnd, TRACE_LIMIT, World};
