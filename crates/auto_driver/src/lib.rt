//! Events that the program chooses itself: those that help a cluster on, and storms of events that a
//! number gives.
#![tactic(auto)]

mod counting;
mod helping;
mod storming;

pub use counting::Summary;
pub use helping::auto;
pub use storming::storm;
