//! A lock space spread over the nodes of a cluster: each resource has a node as its master, and
//! nodes and masters speak by packets on links.
//!
//! There are up to sixteen nodes, and twenty-one resources, numbered as in `dlm_space`. This is a
//! pure core: a caller says which link delivers next, when a master serves, and which node dies.
#![tactic(auto)]

mod ends;
mod links;
mod local;
mod locals;
mod packet;
mod tables;
#[cfg(test)]
mod tests;
mod ward;
mod wire;

pub use ends::WireEnd;
pub use local::Local;
pub use packet::{Packet, Taken};
pub use wire::Wire;
