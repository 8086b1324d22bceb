//! Message rounds: how a node of the cluster says something to all others.
//!
//! After the Linux kernel's `Documentation/driver-api/md/md-cluster.rst` ("Communication").
//! No call takes memory.
#![tactic(auto)]

mod calls;
mod errors;
mod laws;
mod phases;
mod receiver;
mod sender;
#[cfg(test)]
mod tests;

pub use errors::RoundError;
pub use laws::rounds_make_calls;
pub use phases::{ReceiverPhase, SenderPhase, Verdict};
pub use receiver::Receiver;
pub use sender::Sender;
